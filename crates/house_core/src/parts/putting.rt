//! Putting entries, and giving locks back.

ghost use Rattle.std.specs.Prelude.{◌≡◌, ◌++◌, Some, None, option_map};
ghost use Rattle.house_core.specs.Calls.{due_in_account, due_in_book, for_account, for_book};
ghost use Rattle.house_core.specs.Inner.Moves.{IsPuttingAccount, IsPuttingBook, put_in_its_book};
ghost use Rattle.house_core.specs.Inner.Ready.{AccountIsReady, BookIsReady};

use super::Parts;
use crate::locks::{AccountLock, BookLock};
use crate::running_call::RunningCall;
use period_order::{put_in_account, put_in_book};

// Puts what the call carries into its account, and gives the lock back.
fn put_account(call: &RunningCall, lock: &mut AccountLock)
    requires puts { IsPuttingAccount call.now }
    requires ready { AccountIsReady call.now lock.old }
    ensures holder { lock.new.holder ≡ None }
    ensures entries { lock.new.account.entries ≡ lock.old.account.entries ++ due_in_account call.now }
{
    if let Some(carried) = call.for_account() {
        if let Some(event) = &carried.event {
            put_in_account(&mut lock.account, event, carried.period);
        }
    }
    lock.holder = None;
}

// Puts what the call carries into its book, and gives the lock back; nothing is carried then.
fn put_book(call: &mut RunningCall, lock: &mut BookLock)
    requires puts { IsPuttingBook call.old }
    requires ready { BookIsReady call.old lock.old }
    ensures call { call.new ≡ put_in_its_book call.old }
    ensures holder { lock.new.holder ≡ None }
    ensures entries { lock.new.book.entries ≡ lock.old.book.entries ++ due_in_book call.old }
{
    if let Some((event, period)) = call.take_event() {
        put_in_book(&mut lock.book, event, period);
    }
    call.has_book = false;
    lock.holder = None;
}

impl Parts {
    ghost use Rattle.std.specs.Prelude.{◌≡◌, ◌<◌, length};
    ghost use Rattle.house_core.specs.Inner.Ready.{ArePartsReady, AreSound, shown};
    ghost use Rattle.house_core.specs.Steps.{step};
    ghost use Rattle.house_core.specs.declared.step.Action.TheVariants as action;

    pub fn put_account(&mut self, call: usize)
        requires there { call < length self.old.calls.items }
        requires sound { AreSound self.old }
        ensures world { shown self.new ≡ step (shown self.old) (record { call = call; action = action.PutAccount }) }
        ensures ready { ArePartsReady self.new }
    {
        let Some(number) = self.calls[call].putting_account() else {
            return;
        };
        if number >= self.accounts.len() {
            return;
        }
        put_account(&self.calls[call], &mut self.accounts[number]);
        self.calls[call].has_account = false;
    }

    pub fn put_book(&mut self, call: usize)
        requires there { call < length self.old.calls.items }
        requires sound { AreSound self.old }
        ensures world { shown self.new ≡ step (shown self.old) (record { call = call; action = action.PutBook }) }
        ensures ready { ArePartsReady self.new }
    {
        let Some(number) = self.calls[call].putting_book() else {
            return;
        };
        if number >= self.books.len() {
            return;
        }
        put_book(&mut self.calls[call], &mut self.books[number]);
    }
}
