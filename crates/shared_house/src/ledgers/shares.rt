//! The shares of the ledgers that stand under locks.

ghost use Rattle.std.specs.Prelude.{◌≡◌};

use super::names::Names;
use std::marker::Model;
use std::sync::ledger::{Book, Ledger, Share};

/// One part of a ledger of entries and of the ledger of their amounts.
#[derive(Drop)]
pub struct Shares<E: Ledger, A: Ledger> {
    pub entries: Share<E>,
    pub amounts: Share<A>,
}

impl<E: Ledger, A: Ledger> Model for Shares<E, A> {
    ghost use Rattle.std.specs.Prelude.{◌≡◌};
    ghost use Rattle.shared_house.specs.Locked.{PlainShares};

    ghost Value = { PlainShares };

    ghost view = { λ shares. record { entries = shares.entries.amount; amounts = shares.amounts.amount } };

    ghost invariant = { λ shares. (shares.entries.parts ≡ 1) × (shares.amounts.parts ≡ 1) };
}

/// Counts the entries that a command adds: in the shares of the book or account that it looks into, or in none.
pub trait Counts<E: Ledger, A: Ledger> {
    ghost use Rattle.std.specs.Prelude.{◌≡◌, ◌+◌, Option, None};
    ghost use Rattle.shared_house.specs.Locked.{PlainShares, raised};

    ghost counted: { Self → Option PlainShares };

    /// Adds `count` entries, and `amount` ten-thousandths, to the ledgers and to the shares.
    fn count(&mut self, entries: &mut Book<E>, amounts: &mut Book<A>, count: u64, amount: u64)
        requires nothing { counted self.old ≡ None → (count ≡ 0) × (amount ≡ 0) }
        ensures entries { entries.new.total ≡ entries.old.total + count }
        ensures amounts { amounts.new.total ≡ amounts.old.total + amount }
        ensures counted { counted self.new ≡ raised (counted self.old) count amount };
}

impl<E: Ledger, A: Ledger> Counts<E, A> for Shares<E, A> {
    ghost use Rattle.std.specs.Prelude.{Some};

    ghost counted = { λ shares. Some shares };

    fn count(&mut self, entries: &mut Book<E>, amounts: &mut Book<A>, count: u64, amount: u64) {
        entries.add(&mut self.entries, count);
        amounts.add(&mut self.amounts, amount);
    }
}

/// The shares of a command that looks into no book, or into no account.
#[derive(Drop)]
pub struct NoShares;

impl<E: Ledger, A: Ledger> Counts<E, A> for NoShares {
    ghost use Rattle.std.specs.Prelude.{None};

    ghost counted = { λ _. None };

    fn count(
        &mut self,
        _entries: &mut Book<E>,
        _amounts: &mut Book<A>,
        _count: u64,
        _amount: u64,
    ) {}
}

/// Shares without a part, into which all others are merged when the house ends.
#[derive(Drop)]
pub struct Rest<N: Names> {
    pub book_entries: Share<N::BookEntries>,
    pub book_amounts: Share<N::BookAmounts>,
    pub account_entries: Share<N::AccountEntries>,
    pub account_amounts: Share<N::AccountAmounts>,
    pub events: Share<N::Events>,
    ghost no_book_entries: { (book_entries.parts ≡ 0) × (book_entries.amount ≡ 0) },
    ghost no_book_amounts: { (book_amounts.parts ≡ 0) × (book_amounts.amount ≡ 0) },
    ghost no_account_entries: { (account_entries.parts ≡ 0) × (account_entries.amount ≡ 0) },
    ghost no_account_amounts: { (account_amounts.parts ≡ 0) × (account_amounts.amount ≡ 0) },
    ghost no_events: { (events.parts ≡ 0) × (events.amount ≡ 0) },
}
