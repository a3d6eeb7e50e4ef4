//! Replies to commands that look into a book, an account or both, under their locks. The lock of the book is taken before that of
//! the account, and that of the order last. Memory is allocated first. Then the command gets its place, and its entries are put.

ghost use Rattle.std.specs.Prelude.{◌≡◌, ◌+◌, ◌<◌, true, false, Some, is_some, vec_len};
ghost use Rattle.cdr_checks.specs.Admission.{IsAdmitted};
ghost use Rattle.cdr_checks.specs.Parties.{operator_of_command, provider_of_command};
ghost use Rattle.plain_house.specs.Replies.{stamped};
ghost use Rattle.period_order.specs.Decided.{AccountTakesAny, BookTakesAny, event_of};
ghost use Rattle.shared_house.specs.Calls.{Returns, event_count, is_collecting};
ghost use Rattle.shared_house.specs.Inner.Outcomes.{account_with, book_with, reply_in};

use super::locks::House;
use crate::gate::{Gate, Waypoint};
use crate::laws::house_laws;
use crate::ledgers::{Configured, Names, NoShares, Part};
use crate::locked::{LockedAccount, LockedBook};
use crate::waiting::take_lock;
use cdr_checks::Command;
use operator_book::Book;
use period_order::{Decided, Outcome, put_in_account, put_in_book};
use plain_house::{Event, Refused, Replied, out_of_memory, stamped};
use provider_account::Account;
use std::sync::Wait;
use std::sync::ledger::Share;

// Returns the event to put, and the reply, of a command that collects nothing.
fn to_put(decided: Decided) -> (Option<Event>, Result<Replied, Refused>)
    requires { is_some (reply_in decided.outcome) ≡ true }
    ensures event { result.0 ≡ event_of decided.outcome }
    ensures reply { (reply : _) → reply_in decided.outcome ≡ Some reply → result.1 ≡ stamped decided.point reply }
{
    let Decided {
        point,
        period: _,
        outcome,
    } = decided;
    match outcome {
        Outcome::Replied { reply, event } => (event, stamped(point, reply)),
        Outcome::Closed { .. } | Outcome::Stated { .. } => unreachable!(),
    }
}

fn put_any_in_account(account: &mut Account, event: &Option<Event>, period: u64)
    requires room { account.old.has_room ≡ true }
    requires takes { AccountTakesAny (Some account.old) period event.now }
    ensures { account.new.entries ≡ account_with account.old.entries period event.now }
{
    if let Some(event) = event {
        put_in_account(account, event, period);
    }
}

fn put_any_in_book(book: &mut Book, event: Option<Event>, period: u64)
    requires room { book.old.has_room ≡ true }
    requires takes { BookTakesAny (Some book.old) event }
    ensures { book.new.entries ≡ book_with book.old.entries period event }
{
    if let Some(event) = event {
        put_in_book(book, event, period);
    }
}

impl<N: Names> House<N> {
    /// Replies to a command that looks into a book alone. If an allocation fails, the command gets no place, and nothing changes.
    pub(super) fn in_book<R: Wait, G: Gate>(
        &self,
        rt: &R,
        pass: usize,
        mine: &mut Share<N::Events>,
        gate: &G,
        operator: usize,
        command: Command,
    ) -> Result<Replied, Refused>
        requires admitted { IsAdmitted N.BookEntries.config command }
        requires book { operator < vec_len self.now.locks.books }
        requires operator { is_some (operator_of_command command) ≡ true }
        requires provider { is_some (provider_of_command command) ≡ false }
        requires alone { is_collecting command ≡ false }
        requires part { mine.old.parts ≡ 1 }
        ensures part { mine.new.parts ≡ 1 }
        ensures share { mine.new.amount ≡ mine.old.amount + event_count result }
        ensures returns { Returns N.BookEntries.config command mine.old.amount result }
    {
        house_laws();
        let mut book_lock = take_lock(rt, &self.locks.books[operator]);
        gate.at(pass, Waypoint::BookHeld(operator));
        let held_book = &mut *book_lock;
        let LockedBook {
            book,
            shares: in_book,
        } = held_book;
        if book.reserve().is_err() {
            return Err(out_of_memory());
        }
        let in_order = take_lock(rt, &self.locks.order).decide(
            &self.config,
            command,
            Some(book),
            in_book,
            None,
            &mut NoShares,
            mine,
        );
        let Ok(decided) = in_order else {
            return Err(out_of_memory());
        };
        let period = decided.period;
        let (event, reply) = to_put(decided);
        put_any_in_book(book, event, period);
        reply
    }

    /// Replies to a command that looks into an account alone, in the same way.
    pub(super) fn in_account<R: Wait, G: Gate>(
        &self,
        rt: &R,
        pass: usize,
        mine: &mut Share<N::Events>,
        gate: &G,
        provider: usize,
        command: Command,
    ) -> Result<Replied, Refused>
        requires admitted { IsAdmitted N.BookEntries.config command }
        requires account { provider < vec_len self.now.locks.accounts }
        requires operator { is_some (operator_of_command command) ≡ false }
        requires provider { is_some (provider_of_command command) ≡ true }
        requires alone { is_collecting command ≡ false }
        requires part { mine.old.parts ≡ 1 }
        ensures part { mine.new.parts ≡ 1 }
        ensures share { mine.new.amount ≡ mine.old.amount + event_count result }
        ensures returns { Returns N.BookEntries.config command mine.old.amount result }
    {
        house_laws();
        let mut account_lock = take_lock(rt, &self.locks.accounts[provider]);
        gate.at(pass, Waypoint::AccountHeld(provider));
        let held_account = &mut *account_lock;
        let LockedAccount {
            account,
            shares: in_account,
        } = held_account;
        if account.reserve().is_err() {
            return Err(out_of_memory());
        }
        let in_order = take_lock(rt, &self.locks.order).decide(
            &self.config,
            command,
            None,
            &mut NoShares,
            Some(account),
            in_account,
            mine,
        );
        let Ok(decided) = in_order else {
            return Err(out_of_memory());
        };
        let period = decided.period;
        let (event, reply) = to_put(decided);
        put_any_in_account(account, &event, period);
        reply
    }

    /// Replies to a command that looks into a book and an account, in the same way.
    pub(super) fn in_both<R: Wait, G: Gate>(
        &self,
        rt: &R,
        pass: usize,
        mine: &mut Share<N::Events>,
        gate: &G,
        operator: usize,
        provider: usize,
        command: Command,
    ) -> Result<Replied, Refused>
        requires admitted { IsAdmitted N.BookEntries.config command }
        requires book { operator < vec_len self.now.locks.books }
        requires account { provider < vec_len self.now.locks.accounts }
        requires operator { is_some (operator_of_command command) ≡ true }
        requires provider { is_some (provider_of_command command) ≡ true }
        requires alone { is_collecting command ≡ false }
        requires part { mine.old.parts ≡ 1 }
        ensures part { mine.new.parts ≡ 1 }
        ensures share { mine.new.amount ≡ mine.old.amount + event_count result }
        ensures returns { Returns N.BookEntries.config command mine.old.amount result }
    {
        house_laws();
        let mut book_lock = take_lock(rt, &self.locks.books[operator]);
        gate.at(pass, Waypoint::BookHeld(operator));
        let mut account_lock = take_lock(rt, &self.locks.accounts[provider]);
        gate.at(pass, Waypoint::AccountHeld(provider));
        let held_book = &mut *book_lock;
        let LockedBook {
            book,
            shares: in_book,
        } = held_book;
        let held_account = &mut *account_lock;
        let LockedAccount {
            account,
            shares: in_account,
        } = held_account;
        if book.reserve().is_err() {
            return Err(out_of_memory());
        }
        if account.reserve().is_err() {
            return Err(out_of_memory());
        }
        let placed = take_lock(rt, &self.locks.order).decide(
            &self.config,
            command,
            Some(book),
            in_book,
            Some(account),
            in_account,
            mine,
        );
        let Ok(decided) = placed else {
            return Err(out_of_memory());
        };
        let period = decided.period;
        let (added, reply) = to_put(decided);
        put_any_in_account(account, &added, period);
        put_any_in_book(book, added, period);
        reply
    }
}
