//! Entry books: books, accounts and an order to which events are put as they are given.

ghost use Rattle.std.specs.Prelude.{◌≡◌, ◌↔◌, ◌-◌, ◌++◌, [], ◌∷◌, List, Some, length, slice_get, true, IfOk};
ghost use Rattle.cdr_checks.specs.Admission.{IsAdmitted};
ghost use Rattle.plain_house.specs.declared.event.Event.{Event};
ghost use Rattle.plain_house.specs.House.{events_after};
ghost use Rattle.plain_house.specs.Legal.{IsLegal};
ghost use Rattle.period_order.specs.EntryBooks.{IsDecided, Keep};

use super::book_house::books;
use super::book_house::keep::keep;
use super::decided::Decided;
use super::last::is_last;
use super::laws::configurations_judge_for_themselves;
use super::order::Order;
use cdr_checks::Command;
use ocpi_types::Config;
use operator_book::Book;
use plain_house::{Event, empty_lists_are_legal};
use provider_account::Account;
use std::alloc::{AllocError, Global};
use std::marker::Model;

mod order_entry;
mod parties;
mod put;
mod takes;

/// A book for each operator, an account for each provider, and the order of events, whatever events they are. What is said of
/// them is said for each list that they keep, and such a list is legal.
pub struct EntryBooks {
    config: Config,
    books: Vec<Book>,
    accounts: Vec<Account>,
    order: Order,
}

// Not derived: what is derived is proved anew in each crate that drops one.
impl Drop for EntryBooks {
    fn drop(self) {
        let EntryBooks {
            config: _,
            books: _,
            accounts: _,
            order: _,
        } = self;
    }
}

impl Model for EntryBooks {
    ghost use Rattle.period_order.specs.Inner.Kept.{OneEach};
    ghost use Rattle.period_order.specs.EntryBooks.{PlainEntryBooks};
    ghost use Rattle.period_order.specs.Resolved.{entries_of_accounts, entries_of_books};

    ghost Value = { PlainEntryBooks };

    ghost view = { λ entry_books. record {
      config = entry_books.config;
      books = entries_of_books entry_books.books.items;
      accounts = entries_of_accounts entry_books.accounts.items;
      order = entry_books.order.entries;
    } };

    ghost invariant = { λ entry_books. OneEach entry_books.config (entries_of_books entry_books.books.items) (entries_of_accounts entry_books.accounts.items) };
}

impl EntryBooks {
    /// The entry books of no event, with room for as many entries as these books and accounts have, each for its number.
    ///
    /// # Errors
    ///
    /// `AllocError` where memory is refused.
    pub fn with_room(
        alloc: Global,
        config: Config,
        books: &[Book],
        accounts: &[Account],
    ) -> Result<EntryBooks, AllocError>
        ensures config { IfOk result (λ entry_books. entry_books.config ≡ config) }
        ensures empty { IfOk result (λ entry_books. Keep entry_books []) }
    {
        empty_lists_are_legal();
        let books = books::books(alloc, &config, books)?;
        let accounts = books::accounts(alloc, &config, accounts)?;
        Ok(EntryBooks {
            config,
            books,
            accounts,
            order: Order::new(alloc),
        })
    }

    /// Puts an event as it is given. False where its book or its account cannot take it; they take each event with which a list
    /// that they keep stays legal.
    ///
    /// # Errors
    ///
    /// `AllocError` where memory is refused.
    pub fn put(&mut self, event: &Event) -> Result<bool, AllocError>
        ensures config { self.new.config ≡ self.old.config }
        ensures put { IfOk result (λ is_put. is_put ≡ true → (events : List Event) → Keep self.old events →
            IsLegal self.old.config (events ++ event.now ∷ []) → Keep self.new (events ++ event.now ∷ [])) }
        ensures legal { IfOk result (λ is_put. (events : List Event) → Keep self.old events →
            IsLegal self.old.config (events ++ event.now ∷ []) → is_put ≡ true) }
    {
        let (books, accounts) = (&mut self.books, &mut self.accounts);
        put::put(&self.config, books, accounts, &mut self.order, event)
    }

    /// Gives an admitted command its place in the order and puts its event; what is to be collected of the books is left.
    ///
    /// # Errors
    ///
    /// `AllocError` where memory is refused.
    pub fn decide(&mut self, command: Command) -> Result<Decided, AllocError>
        requires { IsAdmitted self.old.config command }
        ensures config { self.new.config ≡ self.old.config }
        ensures decided { IfOk result (λ decided. (events : List Event) → Keep self.old events → IsDecided self.old.config events command decided) }
        ensures kept { IfOk result (λ decided. (events : List Event) → Keep self.old events → Keep self.new (events_after self.old.config events command)) }
    {
        configurations_judge_for_themselves();
        let config = &self.config;
        let (books, accounts) = (&mut self.books, &mut self.accounts);
        keep(config, config, books, accounts, &mut self.order, command)
    }

    /// The event is the last one.
    pub fn is_last(&self, event: &Event) -> bool
        ensures { (events : List Event) → Keep self.now events → (result ≡ true) ↔ (slice_get events (length events - 1) ≡ Some event.now) }
    {
        let (books, accounts) = (self.books.as_slice(), self.accounts.as_slice());
        is_last(books, accounts, &self.order, event)
    }
}
