use crate::ledgers::{Names, Shares};
use plain_house::AccountEntry;
use provider_account::Account;
use std::marker::Model;

/// An account under its lock. Whenever the lock is free, its entries are legal for the configuration of its house, and its
/// shares are the number of its entries and the sum of the amounts that they book.
#[derive(Drop)]
pub struct LockedAccount<N: Names> {
    pub(crate) account: Account,
    pub(crate) shares: Shares<N::AccountEntries, N::AccountAmounts>,
}

impl<N: Names> Model for LockedAccount<N> {
    ghost use Rattle.provider_account.specs.State.{PlainAccount};
    ghost use Rattle.shared_house.specs.Locked.{IsCountedAccount};

    ghost Value = { PlainAccount };

    ghost view = { λ held. held.account };

    ghost invariant = { λ held. IsCountedAccount N.BookEntries.config held.account.entries held.shares };
}

impl<N: Names> LockedAccount<N> {
    ghost use Rattle.std.specs.Prelude.{◌≡◌};
    ghost use Rattle.plain_house.specs.LegalEntries.{IsLegalAccount};

    /// What was put into the account, in order.
    pub fn entries(&self) -> &[AccountEntry]
        ensures entries { result.now ≡ self.now.entries }
        ensures legal { IsLegalAccount N.BookEntries.config self.now.entries }
    {
        self.account.entries()
    }
}
