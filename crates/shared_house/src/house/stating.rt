//! A statement: it has its place in the order, and its rows are collected behind that.

ghost use Rattle.std.specs.Prelude.{◌≡◌, ◌+◌, ◌≤◌, ℕ, [], None};
ghost use Rattle.cdr_checks.specs.declared.request.Command.TheVariants.{Statement as StatementCommand};
ghost use Rattle.netting_positions.specs.Netting.{parties};
ghost use Rattle.shared_house.specs.Calls.{Returns, event_count};
ghost use Rattle.shared_house.specs.Inner.Tallies.{tally_of};
ghost use Rattle.shared_house.specs.Inner.Told.{IsPlaced, IsRight};

use super::collecting::is_configuration;
use super::locks::House;
use crate::gate::Gate;
use crate::laws::{collecting_laws, house_laws};
use crate::ledgers::{Configured, Names, NoShares, Part};
use crate::waiting::take_lock;
use cdr_checks::{Command, StatementOf};
use netting_positions::StatementTable;
use period_order::{Decided, Outcome};
use plain_house::{Answer, Refused, Replied, out_of_memory, stamped};
use std::sync::Wait;
use std::sync::ledger::Share;

impl<N: Names> House<N> {
    // What is left once the statement has its place in the order.
    fn end_statement<R: Wait, G: Gate>(
        &self,
        rt: &R,
        pass: usize,
        gate: &G,
        ask: &StatementOf,
        table: StatementTable,
        decided: Decided,
    ) -> Result<Replied, Refused>
        requires empty { table ≡ record { party = ask.now.party; parties = parties N.BookEntries.config; currencies = N.BookEntries.config.currencies; obligations = [] } }
        requires decides { IsPlaced N.BookEntries.config None None (StatementCommand ask.now) decided }
        ensures { (least : ℕ) → least ≤ decided.point → IsRight N.BookEntries.config (StatementCommand ask.now) least (tally_of decided.outcome).events result }
    {
        house_laws();
        collecting_laws();
        is_configuration(&self.config);
        let Decided {
            point,
            period: _,
            outcome,
        } = decided;
        match outcome {
            Outcome::Replied { reply, .. } => stamped(point, reply),
            Outcome::Stated { .. } => {
                let rows = self.state(rt, pass, gate, ask, table);
                stamped(point, Ok(Answer::Statement { rows }))
            }
            Outcome::Closed { .. } => unreachable!(),
        }
    }

    /// Replies to a command that asks for a statement.
    pub(super) fn statement_of<R: Wait, G: Gate>(
        &self,
        rt: &R,
        pass: usize,
        mine: &mut Share<N::Events>,
        gate: &G,
        ask: &StatementOf,
    ) -> Result<Replied, Refused>
        requires part { mine.old.parts ≡ 1 }
        ensures part { mine.new.parts ≡ 1 }
        ensures share { mine.new.amount ≡ mine.old.amount + event_count result }
        ensures returns { Returns N.BookEntries.config (StatementCommand ask.now) mine.old.amount result }
    {
        let alloc = *self.locks.books.allocator();
        let Ok(table) = StatementTable::new(alloc, &self.config, ask.party) else {
            return Err(out_of_memory());
        };
        let in_order = take_lock(rt, &self.locks.order).decide(
            &self.config,
            Command::Statement(*ask),
            None,
            &mut NoShares,
            None,
            &mut NoShares,
            mine,
        );
        let Ok(decided) = in_order else {
            return Err(out_of_memory());
        };
        self.end_statement(rt, pass, gate, ask, table, decided)
    }
}
