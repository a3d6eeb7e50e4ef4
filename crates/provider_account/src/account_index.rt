//! What is known of the entries of an account, by their keys.

ghost use Rattle.std.specs.Prelude.{◌≡◌, ◌*◌, ◌^◌, ◌≤◌, List, [], ◌∷◌, ◌++◌, OnOk};
ghost use Rattle.plain_house.specs.Exposure.{exposure_of};
ghost use Rattle.plain_house.specs.declared.entry.AccountEntry.{AccountEntry};
ghost use Rattle.plain_house.specs.declared.entry.AccountEntry.TheVariants as account;
ghost use Rattle.provider_account.specs.Inner.Holds.{IsNext};
ghost use Rattle.provider_account.specs.Inner.AccountIndex.{AreLimited, HasRoom, Knows};

use super::counts::AccountCounts;
use super::debts::Debts;
use super::holds::Holds;
use super::tokens::Tokens;
use plain_house::{AccountEntry, Charge, Scope, entries_add_at_most};
use std::alloc::{AllocError, Global};

/// Tokens, holds and debts by their keys, and how many entries there are.
#[derive(Drop)]
pub(crate) struct AccountIndex {
    pub tokens: Tokens,
    pub counts: AccountCounts,
    pub holds: Holds,
    pub debts: Debts,
}

impl AccountIndex {
    pub(crate) fn new(alloc: Global) -> AccountIndex
        ensures { Knows result [] }
    {
        AccountIndex {
            tokens: Tokens::new(alloc),
            counts: AccountCounts::new(alloc),
            holds: Holds::new(alloc),
            debts: Debts::new(alloc),
        }
    }

    /// The open holds and debts within the scope, in ten-thousandths.
    pub(crate) fn exposure(&self, entries: &[AccountEntry], scope: &Scope) -> u64
        requires knows { Knows self.now entries.now }
        requires limited { AreLimited entries.now }
        ensures value { result ≡ exposure_of scope.now entries.now }
        ensures bound { result ≤ 10 ^ 15 }
    {
        self.holds.total(scope) + self.debts.owed(entries, scope)
    }

    /// The same, with the charge added.
    pub(crate) fn exposure_with(
        &self,
        entries: &[AccountEntry],
        scope: &Scope,
        charge: &Charge,
    ) -> u64
        requires knows { Knows self.now entries.now }
        requires limited { AreLimited entries.now }
        ensures value { result ≡ exposure_of scope.now (entries.now ++ account.Charge charge.now ∷ []) }
        ensures bound { result ≤ 2 * 10 ^ 15 }
    {
        entries_add_at_most();
        let _cost = charge.cost.get();
        self.holds.total_with(scope, charge) + self.debts.owed_with(entries, scope, charge)
    }

    /// Room to find so many more charges.
    pub(crate) fn make_room(&mut self, charges: usize) -> Result<(), AllocError>
        ensures more { HasRoom self.old → HasRoom self.new }
        ensures kept { (entries : List AccountEntry) → Knows self.old entries → Knows self.new entries }
    {
        self.debts.make_room(charges)
    }

    /// Room for what one more entry needs.
    pub(crate) fn reserve(&mut self) -> Result<(), AllocError>
        ensures room { OnOk result (HasRoom self.new) }
        ensures more { HasRoom self.old → HasRoom self.new }
        ensures kept { (entries : List AccountEntry) → Knows self.old entries → Knows self.new entries }
    {
        self.tokens.reserve()?;
        self.counts.reserve()?;
        self.holds.reserve()?;
        self.debts.reserve()
    }

    /// Takes the entry in, without taking memory.
    pub(crate) fn put(&mut self, entries: &[AccountEntry], entry: &AccountEntry)
        requires room { HasRoom self.old }
        requires knows { Knows self.old entries.now }
        requires limited { AreLimited entries.now }
        requires next { IsNext entries.now entry.now }
        ensures { Knows self.new (entries.now ++ entry.now ∷ []) }
    {
        self.tokens.put(entry);
        self.counts.put(entry);
        self.holds.put(entry);
        self.debts.put(entries, entry);
    }
}
