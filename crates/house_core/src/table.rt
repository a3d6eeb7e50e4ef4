//! What a close or a statement collects in, made before its point so that nothing behind it takes memory.

ghost use Rattle.std.specs.Prelude.{◌≡◌, IfOk};
ghost use Rattle.house_core.specs.Inner.Tables.{IsTableOf, stage_with, table_for};

use crate::collection::Collection;
use crate::stage::{Carried, Netting, Stage, Stating};
use cdr_checks::Command;
use netting_positions::{Positions, StatementTable};
use ocpi_types::Config;
use period_order::{Decided, Outcome};
use std::alloc::{AllocError, Global};

/// The table of what is collected from all books.
#[derive(Drop)]
pub enum Table {
    Nothing,
    NetPositions(Collection<Positions>),
    Statement(Collection<StatementTable>),
}

impl Table {
    /// The table for a command, with no book in it yet.
    pub fn new(alloc: Global, config: &Config, command: &Command) -> Result<Table, AllocError>
        ensures { IfOk result (λ table. table ≡ table_for config.now command.now) }
    {
        match command {
            Command::Close(_) => {
                let positions = Positions::new(alloc, config)?;
                Ok(Table::NetPositions(Collection::new(alloc, config, positions)?))
            }
            Command::Statement(ask) => {
                let table = StatementTable::new(alloc, config, ask.party)?;
                Ok(Table::Statement(Collection::new(alloc, config, table)?))
            }
            _ => Ok(Table::Nothing),
        }
    }
}

/// The stage behind the order, with the table in which is collected what is left to be.
pub fn stage_with(decided: Decided, table: Table) -> Stage
    requires { IsTableOf decided.outcome table }
    ensures { result ≡ stage_with decided.point decided.period decided.outcome table }
{
    let Decided {
        point,
        period: current,
        outcome,
    } = decided;
    match (outcome, table) {
        (Outcome::Replied { reply, event }, _) => Stage::Ordered(Carried {
            point,
            period: current,
            reply,
            event,
        }),
        (Outcome::Closed { period }, Table::NetPositions(collection)) => Stage::Netting(Netting {
            point,
            period,
            collection,
        }),
        (Outcome::Stated { ask }, Table::Statement(collection)) => Stage::Stating(Stating {
            point,
            period: ask.period,
            collection,
        }),
        (Outcome::Closed { .. } | Outcome::Stated { .. }, _) => unreachable!(),
    }
}
