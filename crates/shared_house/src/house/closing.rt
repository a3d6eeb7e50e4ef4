//! A close: the period ends in the order, and its net positions are collected behind that.

ghost use Rattle.std.specs.Prelude.{◌≡◌, ◌+◌, ◌≤◌, ℕ, [], None};
ghost use Rattle.cdr_checks.specs.declared.request.Command.TheVariants.{Close as CloseCommand};
ghost use Rattle.netting_positions.specs.Netting.{parties};
ghost use Rattle.shared_house.specs.Calls.{Returns, event_count};
ghost use Rattle.shared_house.specs.Inner.Tallies.{tally_of};
ghost use Rattle.shared_house.specs.Inner.Told.{IsPlaced, IsRight};

use super::collecting::is_configuration;
use super::locks::House;
use crate::gate::Gate;
use crate::laws::{collecting_laws, house_laws};
use crate::ledgers::{Configured, Names, NoShares, Part};
use crate::waiting::take_lock;
use cdr_checks::{Close, Command};
use netting_positions::Positions;
use period_order::{Decided, Outcome};
use plain_house::{Answer, Refused, Replied, out_of_memory, stamped};
use std::sync::Wait;
use std::sync::ledger::Share;

impl<N: Names> House<N> {
    // What is left once the close has its place in the order.
    fn end_close<R: Wait, G: Gate>(
        &self,
        rt: &R,
        pass: usize,
        gate: &G,
        close: &Close,
        positions: Positions,
        decided: Decided,
    ) -> Result<Replied, Refused>
        requires empty { positions ≡ record { parties = parties N.BookEntries.config; currencies = N.BookEntries.config.currencies; obligations = [] } }
        requires decides { IsPlaced N.BookEntries.config None None (CloseCommand close.now) decided }
        ensures { (least : ℕ) → least ≤ decided.point → IsRight N.BookEntries.config (CloseCommand close.now) least (tally_of decided.outcome).events result }
    {
        house_laws();
        collecting_laws();
        is_configuration(&self.config);
        let Decided {
            point,
            period: _,
            outcome,
        } = decided;
        match outcome {
            Outcome::Replied { reply, .. } => stamped(point, reply),
            Outcome::Closed { .. } => {
                let period = close.period;
                let positions = self.net(rt, pass, gate, period, positions);
                stamped(point, Ok(Answer::Closed { period, positions }))
            }
            Outcome::Stated { .. } => unreachable!(),
        }
    }

    /// Replies to a close.
    pub(super) fn close_period<R: Wait, G: Gate>(
        &self,
        rt: &R,
        pass: usize,
        mine: &mut Share<N::Events>,
        gate: &G,
        close: &Close,
    ) -> Result<Replied, Refused>
        requires part { mine.old.parts ≡ 1 }
        ensures part { mine.new.parts ≡ 1 }
        ensures share { mine.new.amount ≡ mine.old.amount + event_count result }
        ensures returns { Returns N.BookEntries.config (CloseCommand close.now) mine.old.amount result }
    {
        let alloc = *self.locks.books.allocator();
        let Ok(positions) = Positions::new(alloc, &self.config) else {
            return Err(out_of_memory());
        };
        let in_order = take_lock(rt, &self.locks.order).decide(
            &self.config,
            Command::Close(*close),
            None,
            &mut NoShares,
            None,
            &mut NoShares,
            mine,
        );
        let Ok(decided) = in_order else {
            return Err(out_of_memory());
        };
        self.end_close(rt, pass, gate, close, positions, decided)
    }
}
