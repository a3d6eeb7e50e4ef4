//! The replies to commands.

ghost use Rattle.std.specs.Prelude.{◌≡◌, ◌+◌, false};
ghost use Rattle.cdr_checks.specs.Admission.{IsAdmitted};
ghost use Rattle.shared_house.specs.Calls.{Returns, event_count, is_collecting};

use super::locks::House;
use super::numbers::{account_number, book_number};
use crate::gate::Gate;
use crate::ledgers::{Configured, Names, Part};
use cdr_checks::{Command, commands_have_parties};
use plain_house::{Refused, Replied};
use std::sync::Wait;
use std::sync::ledger::Share;

impl<N: Names> House<N> {
    // Replies to a command that is neither a close nor a statement.
    #[tactic(auto, using(crate::proofs::CommandLemmas::looks_into_one))]
    fn held<R: Wait, G: Gate>(
        &self,
        rt: &R,
        pass: usize,
        mine: &mut Share<N::Events>,
        gate: &G,
        command: Command,
    ) -> Result<Replied, Refused>
        requires admitted { IsAdmitted N.BookEntries.config command }
        requires alone { is_collecting command ≡ false }
        requires part { mine.old.parts ≡ 1 }
        ensures part { mine.new.parts ≡ 1 }
        ensures share { mine.new.amount ≡ mine.old.amount + event_count result }
        ensures returns { Returns N.BookEntries.config command mine.old.amount result }
    {
        commands_have_parties();
        let book = book_number(&self.config, &command);
        let account = account_number(&self.config, &command);
        let Some(operator) = book else {
            let Some(provider) = account else {
                unreachable!();
            };
            return self.in_account(rt, pass, mine, gate, provider, command);
        };
        let Some(provider) = account else {
            return self.in_book(rt, pass, mine, gate, operator, command);
        };
        self.in_both(rt, pass, mine, gate, operator, provider, command)
    }

    /// Replies to a command.
    pub(super) fn reply<R: Wait, G: Gate>(
        &self,
        rt: &R,
        pass: usize,
        mine: &mut Share<N::Events>,
        gate: &G,
        command: Command,
    ) -> Result<Replied, Refused>
        requires admitted { IsAdmitted N.BookEntries.config command }
        requires part { mine.old.parts ≡ 1 }
        ensures part { mine.new.parts ≡ 1 }
        ensures share { mine.new.amount ≡ mine.old.amount + event_count result }
        ensures returns { Returns N.BookEntries.config command mine.old.amount result }
    {
        match command {
            Command::Close(close) => self.close_period(rt, pass, mine, gate, &close),
            Command::Statement(ask) => self.statement_of(rt, pass, mine, gate, &ask),
            command => self.held(rt, pass, mine, gate, command),
        }
    }
}
