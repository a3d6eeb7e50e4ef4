use crate::ledgers::{Names, Shares};
use operator_book::Book;
use plain_house::BookEntry;
use std::marker::Model;

/// A book under its lock. Whenever the lock is free, its entries are legal for the configuration of its house, and its shares
/// are the number of its entries and the sum of the amounts that they book.
#[derive(Drop)]
pub struct LockedBook<N: Names> {
    pub(crate) book: Book,
    pub(crate) shares: Shares<N::BookEntries, N::BookAmounts>,
}

impl<N: Names> Model for LockedBook<N> {
    ghost use Rattle.operator_book.specs.State.{PlainBook};
    ghost use Rattle.shared_house.specs.Locked.{IsCountedBook};

    ghost Value = { PlainBook };

    ghost view = { λ held. held.book };

    ghost invariant = { λ held. IsCountedBook N.BookEntries.config held.book.entries held.shares };
}

impl<N: Names> LockedBook<N> {
    ghost use Rattle.std.specs.Prelude.{◌≡◌};
    ghost use Rattle.plain_house.specs.LegalEntries.{IsLegalBook};

    /// What was put into the book, in order.
    pub fn entries(&self) -> &[BookEntry]
        ensures entries { result.now ≡ self.now.entries }
        ensures legal { IsLegalBook N.BookEntries.config self.now.entries }
    {
        self.book.entries()
    }
}
