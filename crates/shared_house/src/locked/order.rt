//! The order under its lock, and how a command gets its place there.

ghost use Rattle.std.specs.Prelude.{◌≡◌, count_by, ◌+◌, ◌*◌, ◌^◌, ◌≤◌, is_some, length, IfOk, OnErr};
ghost use Rattle.std.specs.Option.{option_copied};
ghost use Rattle.cdr_checks.specs.Parties.{operator_of_command, provider_of_command};
ghost use Rattle.period_order.specs.Decided.{Decides};
ghost use Rattle.period_order.specs.Order.{current_of, is_close_entry, names_account, names_book, point_of};
ghost use Rattle.shared_house.specs.Inner.Outcomes.{with_room};
ghost use Rattle.shared_house.specs.Inner.Tallies.{tally_of};
ghost use Rattle.shared_house.specs.Inner.Told.{IsPlaced};
ghost use Rattle.shared_house.specs.Locked.{raised};

use crate::laws::house_laws;
use crate::ledgers::{Configured, Counts, Names, tally_of};
use cdr_checks::Command;
use ocpi_types::Config;
use operator_book::Book;
use period_order::{Decided, Order, decide};
use provider_account::Account;
use std::alloc::AllocError;
use std::sync::ledger;
use std::sync::ledger::Share;

/// The order under its lock, with the totals of the five ledgers.
///
/// Whenever the lock is free, the totals are the number of its entries that name a book, of those that name an account, and of
/// all; and one amount, over the books and over the accounts, of at most 10^12 ten-thousandths for each entry.
#[derive(Drop)]
pub struct LockedOrder<N: Names> {
    pub order: Order,
    pub book_entries: ledger::Book<N::BookEntries>,
    pub book_amounts: ledger::Book<N::BookAmounts>,
    pub account_entries: ledger::Book<N::AccountEntries>,
    pub account_amounts: ledger::Book<N::AccountAmounts>,
    pub events: ledger::Book<N::Events>,
    ghost books_counted: { book_entries.total ≡ count_by names_book order.entries },
    ghost accounts_counted: { account_entries.total ≡ count_by names_account order.entries },
    ghost events_counted: { events.total ≡ length order.entries },
    ghost one_amount: { book_amounts.total ≡ account_amounts.total },
    ghost bounded: { book_amounts.total ≤ 10 ^ 12 * length order.entries },
}

impl<N: Names> LockedOrder<N> {
    /// The current period: the number of closes so far.
    pub fn current(&self) -> u64
        ensures { result ≡ count_by is_close_entry self.now.order.entries }
    {
        self.order.current()
    }

    /// Gives a command its place in the order, by the book and the account that it looks into, if any. Counts the entries that it
    /// adds, before they are put.
    ///
    /// # Errors
    ///
    /// `AllocError` if there is no memory for the order. The shares are as before.
    pub(crate) fn decide<B, A>(
        &mut self,
        config: &Config,
        command: Command,
        book: Option<&Book>,
        in_book: &mut B,
        account: Option<&Account>,
        in_account: &mut A,
        mine: &mut Share<N::Events>,
    ) -> Result<Decided, AllocError>
    where
        B: Counts<N::BookEntries, N::BookAmounts>,
        A: Counts<N::AccountEntries, N::AccountAmounts>,
        requires config { config.now ≡ N.BookEntries.config }
        requires operator { is_some book ≡ is_some (operator_of_command command) }
        requires provider { is_some account ≡ is_some (provider_of_command command) }
        requires in_book { is_some (B.counted in_book.old) ≡ is_some book }
        requires in_account { is_some (A.counted in_account.old) ≡ is_some account }
        requires part { mine.old.parts ≡ 1 }
        ensures placed { IfOk result (λ decided. IsPlaced N.BookEntries.config (option_copied book.entry) (option_copied account.entry) command decided) }
        ensures point { IfOk result (λ decided. decided.point ≡ point_of self.old.order) }
        ensures period { IfOk result (λ decided. decided.period ≡ current_of self.old.order) }
        ensures decides { IfOk result (λ decided. Decides config.now (option_copied book.entry) (option_copied account.entry) (with_room self.old.order) command decided.outcome) }
        ensures at { IfOk result (λ decided. mine.old.amount ≤ decided.point) }
        ensures book { IfOk result (λ decided. B.counted in_book.new ≡ raised (B.counted in_book.old) (tally_of decided.outcome).books (tally_of decided.outcome).amount) }
        ensures account { IfOk result (λ decided. A.counted in_account.new ≡ raised (A.counted in_account.old) (tally_of decided.outcome).accounts (tally_of decided.outcome).amount) }
        ensures mine { IfOk result (λ decided. mine.new.amount ≡ mine.old.amount + (tally_of decided.outcome).events) }
        ensures part { mine.new.parts ≡ 1 }
        ensures unchanged { OnErr result ((B.counted in_book.new ≡ B.counted in_book.old) × (A.counted in_account.new ≡ A.counted in_account.old) × (mine.new.amount ≡ mine.old.amount)) }
    {
        house_laws();
        let LockedOrder {
            order,
            book_entries,
            book_amounts,
            account_entries,
            account_amounts,
            events,
        } = self;
        order.reserve()?;
        events.audit(mine);
        let decided = decide(config, command, book, account, order);
        let added = tally_of(&decided.outcome);
        events.add(mine, added.events);
        in_book.count(book_entries, book_amounts, added.books, added.amount);
        in_account.count(
            account_entries,
            account_amounts,
            added.accounts,
            added.amount,
        );
        Ok(decided)
    }
}
