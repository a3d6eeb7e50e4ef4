//! Beginning, and taking locks.

use super::Parts;

impl Parts {
    ghost use Rattle.std.specs.Prelude.{◌≡◌, ◌<◌, length};
    ghost use Rattle.house_core.specs.Inner.Ready.{ArePartsReady, AreSound, shown};
    ghost use Rattle.house_core.specs.Steps.{step};
    ghost use Rattle.house_core.specs.declared.step.Action.TheVariants as action;

    pub fn begin(&mut self, call: usize)
        requires there { call < length self.old.calls.items }
        requires sound { AreSound self.old }
        ensures world { shown self.new ≡ step (shown self.old) (record { call = call; action = action.Begin }) }
        ensures ready { ArePartsReady self.new }
    {
        let point = self.order.point();
        self.calls[call].begin(point);
    }

    pub fn take_book(&mut self, call: usize)
        requires there { call < length self.old.calls.items }
        requires sound { AreSound self.old }
        ensures world { shown self.new ≡ step (shown self.old) (record { call = call; action = action.TakeBook }) }
        ensures ready { ArePartsReady self.new }
    {
        let Some(number) = self.calls[call].wanted_book() else {
            return;
        };
        if number >= self.books.len() {
            return;
        }
        if self.books[number].holder.is_some() {
            return;
        }
        self.books[number].holder = Some(call);
        self.calls[call].has_book = true;
    }

    pub fn take_account(&mut self, call: usize)
        requires there { call < length self.old.calls.items }
        requires sound { AreSound self.old }
        ensures world { shown self.new ≡ step (shown self.old) (record { call = call; action = action.TakeAccount }) }
        ensures ready { ArePartsReady self.new }
    {
        let Some(number) = self.calls[call].wanted_account() else {
            return;
        };
        if number >= self.accounts.len() {
            return;
        }
        if self.accounts[number].holder.is_some() {
            return;
        }
        self.accounts[number].holder = Some(call);
        self.calls[call].has_account = true;
    }
}
