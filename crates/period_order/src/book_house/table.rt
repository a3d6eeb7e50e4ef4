//! What a close or a statement collects in, made before its point so that nothing behind it takes memory.

ghost use Rattle.std.specs.Prelude.{◌≡◌, IfOk};
ghost use Rattle.period_order.specs.Inner.Collected.{table_of};

use cdr_checks::Command;
use netting_positions::{Positions, StatementTable};
use ocpi_types::Config;
use std::alloc::{AllocError, Global};

/// The table of what is collected from all books.
#[derive(Drop)]
pub enum Table {
    Nothing,
    NetPositions(Positions),
    Statement(StatementTable),
}

impl Table {
    /// The table for a command, without obligations yet.
    pub fn new(alloc: Global, config: &Config, command: &Command) -> Result<Table, AllocError>
        ensures { IfOk result (λ table. table ≡ table_of config.now command.now) }
    {
        match command {
            Command::Close(_) => Ok(Table::NetPositions(Positions::new(alloc, config)?)),
            Command::Statement(ask) => Ok(Table::Statement(StatementTable::new(
                alloc, config, ask.party,
            )?)),
            _ => Ok(Table::Nothing),
        }
    }
}
