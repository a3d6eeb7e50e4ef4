//! The place in the order.

ghost use Rattle.std.specs.Prelude.{◌≡◌, true, is_some, IfOk, OnErr, option_map};
ghost use Rattle.house_core.specs.Calls.{ready};
ghost use Rattle.house_core.specs.Inner.Tables.{table_for};

use super::Parts;
use crate::locks::{account_at, book_at, reserve_account, reserve_book};
use crate::running_call::RunningCall;
use crate::table::{Table, stage_with};
use ocpi_types::Config;
use period_order::decide;
use std::alloc::{AllocError, Global};

// The table for the call's command, once the call holds all that it needs.
fn table_of(alloc: Global, config: &Config, call: &RunningCall) -> Result<Option<Table>, AllocError>
    ensures ok { IfOk result (λ table. table ≡ option_map (table_for config.now) (ready call.now)) }
    ensures memory { OnErr result (is_some (ready call.now) ≡ true) }
{
    match call.ready() {
        Some(command) => Ok(Some(Table::new(alloc, config, command)?)),
        None => Ok(None),
    }
}

impl Parts {
    ghost use Rattle.std.specs.Prelude.{◌≡◌, ◌<◌, true, length, option_map, Some, OnErr, OnOk};
    ghost use Rattle.house_core.specs.Inner.Moves.{ready_at};
    ghost use Rattle.house_core.specs.Inner.Ready.{ArePartsReady, AreSound, HaveRoom, shown};
    ghost use Rattle.house_core.specs.Inner.Tables.{table_for};
    ghost use Rattle.house_core.specs.Steps.{gives_place, step};
    ghost use Rattle.house_core.specs.declared.step.Action.TheVariants as action;

    /// Gives the call's command its place in the order. All memory is taken before.
    pub fn order(&mut self, call: usize) -> Result<(), AllocError>
        requires there { call < length self.old.calls.items }
        requires sound { AreSound self.old }
        ensures ok { OnOk result (shown self.new ≡ step (shown self.old) (record { call = call; action = action.Order })) }
        ensures err { OnErr result (shown self.new ≡ shown self.old) }
        ensures memory { OnErr result (gives_place (shown self.old) (record { call = call; action = action.Order }) ≡ true) }
        ensures ready { ArePartsReady self.new }
    {
        let alloc = *self.calls.allocator();
        let Some(table) = table_of(alloc, &self.config, &self.calls[call])? else {
            return Ok(());
        };
        self.reserve(call)?;
        self.place(call, table);
        Ok(())
    }

    // Makes room for what the call may put, and for one entry of the order.
    fn reserve(&mut self, call: usize) -> Result<(), AllocError>
        requires there { call < length self.old.calls.items }
        requires sound { AreSound self.old }
        ensures world { shown self.new ≡ shown self.old }
        ensures calls { self.new.calls ≡ self.old.calls }
        ensures config { self.new.config ≡ self.old.config }
        ensures sound { AreSound self.new }
        ensures ok { OnOk result (HaveRoom self.new call) }
    {
        let book = self.calls[call].book;
        let account = self.calls[call].account;
        reserve_book(&mut self.books, book)?;
        reserve_account(&mut self.accounts, account)?;
        self.order.reserve()?;
        Ok(())
    }

    fn place(&mut self, call: usize, table: Table)
        requires there { call < length self.old.calls.items }
        requires sound { AreSound self.old }
        requires table { Some table ≡ option_map (table_for self.old.config) (ready_at (shown self.old) call) }
        requires room { HaveRoom self.old call }
        ensures world { shown self.new ≡ step (shown self.old) (record { call = call; action = action.Order }) }
        ensures ready { ArePartsReady self.new }
    {
        let book = self.calls[call].book;
        let account = self.calls[call].account;
        let Some(command) = self.calls[call].take_command() else {
            unreachable!()
        };
        let decided = decide(
            &self.config,
            command,
            book_at(self.books.as_slice(), book),
            account_at(self.accounts.as_slice(), account),
            &mut self.order,
        );
        self.calls[call].go_on(stage_with(decided, table));
    }
}
