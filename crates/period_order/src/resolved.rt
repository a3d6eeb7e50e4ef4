//! The events that an order names in books and accounts.

ghost use Rattle.std.specs.Prelude.{◌≡◌, ◌↔◌, ℕ, true, [], ◌∷◌, Err, option_map, IfOk};
ghost use Rattle.plain_house.specs.Entries.{account_entry, book_entry};
ghost use Rattle.period_order.specs.Resolved.{entries_of_accounts, entries_of_books, entry_at};
ghost use Rattle.period_order.specs.Resolves.{FailsAt, Names, Resolves};
ghost use Rattle.period_order.specs.Inner.Named.{IsNamed};
ghost use Rattle.period_order.specs.declared.order_entry.OrderEntry.TheVariants as entry;
ghost use Rattle.period_order.specs.declared.resolved.ResolveFault.TheVariants as fault;

use super::order_entry::{OrderEntry, Place};
use ocpi_json::same::Same;
use ocpi_types::TryCopy;
use operator_book::Book;
use plain_house::{AccountEntry, BookEntry, Event, charge_of, credit_of};
use provider_account::Account;
use std::alloc::{AllocError, AllocFailed, Global};
use thiserror::Error;

/// Why an order gives no list of events.
#[derive(Clone, Copy, Debug, PartialEq, Eq, Error)]
pub enum ResolveFault {
    /// The first entry, by its number from 0, that names no event in books and accounts.
    #[error("torn at {entry}")]
    Torn { entry: usize },
    #[error("no memory")]
    NoMemory,
}

impl From<AllocError> for ResolveFault {
    ghost use Rattle.std.specs.Prelude.{◌≡◌};
    ghost use Rattle.period_order.specs.declared.resolved.ResolveFault.TheVariants.{NoMemory};

    ghost from_gives = { λ _ e. e ≡ NoMemory };

    fn from(_error: AllocError) -> ResolveFault {
        ResolveFault::NoMemory
    }
}

impl<T: Drop> From<AllocFailed<T>> for ResolveFault {
    ghost use Rattle.std.specs.Prelude.{◌≡◌};
    ghost use Rattle.period_order.specs.declared.resolved.ResolveFault.TheVariants.{NoMemory};

    ghost from_gives = { λ _ e. e ≡ NoMemory };

    fn from(_error: AllocFailed<T>) -> ResolveFault {
        ResolveFault::NoMemory
    }
}

fn book_entry_at(books: &[Book], place: Place) -> Option<&BookEntry>
    ensures { option_map (λ entry. entry.now) result ≡ entry_at (entries_of_books books.now) place }
{
    books.get(place.party)?.entries().get(place.entry)
}

fn account_entry_at(accounts: &[Account], place: Place) -> Option<&AccountEntry>
    ensures { option_map (λ entry. entry.now) result ≡ entry_at (entries_of_accounts accounts.now) place }
{
    accounts.get(place.party)?.entries().get(place.entry)
}

// The event of an entry that stands in a book alone.
fn event_in_book(
    alloc: Global,
    books: &[Book],
    accounts: &[Account],
    period: u64,
    book: Place,
) -> Result<Option<Event>, AllocError>
    ensures { IfOk result (IsNamed (entries_of_books books.now) (entries_of_accounts accounts.now) period (entry.InBook book)) }
{
    match book_entry_at(books, book) {
        Some(BookEntry::Tariff(tariff)) => Ok(Some(Event::Tariff(tariff.copy(alloc)?))),
        Some(BookEntry::Cdr { .. } | BookEntry::Credit { .. }) | None => Ok(None),
    }
}

// The event of an entry that stands in an account alone.
fn event_in_account(
    books: &[Book],
    accounts: &[Account],
    period: u64,
    account: Place,
) -> Option<Event>
    ensures { IsNamed (entries_of_books books.now) (entries_of_accounts accounts.now) period (entry.InAccount account) result }
{
    match account_entry_at(accounts, account)? {
        AccountEntry::Token(token) => Some(Event::Token(*token)),
        AccountEntry::Hold(hold) => Some(Event::Authorised(*hold)),
        AccountEntry::Release(release) => Some(Event::Released(*release)),
        AccountEntry::Settlement(settlement) => Some(Event::Settled(*settlement)),
        AccountEntry::Charge(_) | AccountEntry::Credit(_) => None,
    }
}

// The event of entries that stand in a book and in an account.
fn event_in_both(
    alloc: Global,
    books: &[Book],
    accounts: &[Account],
    period: u64,
    book: Place,
    account: Place,
) -> Result<Option<Event>, AllocError>
    ensures { IfOk result (IsNamed (entries_of_books books.now) (entries_of_accounts accounts.now) period (entry.InBoth book account)) }
{
    let (Some(booked), Some(billed)) = (
        book_entry_at(books, book),
        account_entry_at(accounts, account),
    ) else {
        return Ok(None);
    };
    match (booked, billed) {
        (
            BookEntry::Cdr {
                cdr,
                cost,
                period: dated,
            },
            AccountEntry::Charge(charge),
        ) if *dated == period && charge.is_same(&charge_of(cdr, *cost, period)) => {
            Ok(Some(Event::Cdr {
                cdr: cdr.copy(alloc)?,
                cost: *cost,
            }))
        }
        (
            BookEntry::Credit {
                cdr,
                amount,
                period: dated,
            },
            AccountEntry::Credit(credit),
        ) if *dated == period && credit.is_same(&credit_of(cdr, *amount, period)) => {
            Ok(Some(Event::Credit {
                cdr: cdr.copy(alloc)?,
                amount: *amount,
            }))
        }
        _ => Ok(None),
    }
}

/// The event that an entry of the order names in a period.
pub(crate) fn named(
    alloc: Global,
    books: &[Book],
    accounts: &[Account],
    period: u64,
    entry: OrderEntry,
) -> Result<Option<Event>, AllocError>
    ensures { IfOk result (IsNamed (entries_of_books books.now) (entries_of_accounts accounts.now) period entry) }
{
    match entry {
        OrderEntry::InBook { book } => event_in_book(alloc, books, accounts, period, book),
        OrderEntry::InAccount { account } => Ok(event_in_account(books, accounts, period, account)),
        OrderEntry::InBoth { book, account } => {
            event_in_both(alloc, books, accounts, period, book, account)
        }
        OrderEntry::Close => Ok(Some(Event::Closed { period })),
    }
}

// What a book keeps is of the event, of which an account keeps nothing.
fn is_of_book(kept: &BookEntry, period: u64, event: &Event) -> bool
    ensures { (result ≡ true) ↔ ((kept.now ∷ [] ≡ book_entry event.now period) × ([] ≡ account_entry event.now period)) }
{
    match (kept, event) {
        (BookEntry::Tariff(kept), Event::Tariff(tariff)) => kept.is_same(tariff),
        _ => false,
    }
}

// What an account keeps is of the event, of which a book keeps nothing.
fn is_of_account(kept: &AccountEntry, period: u64, event: &Event) -> bool
    ensures { (result ≡ true) ↔ (([] ≡ book_entry event.now period) × (kept.now ∷ [] ≡ account_entry event.now period)) }
{
    match (kept, event) {
        (AccountEntry::Token(kept), Event::Token(token)) => kept.is_same(token),
        (AccountEntry::Hold(kept), Event::Authorised(hold)) => kept.is_same(hold),
        (AccountEntry::Release(kept), Event::Released(release)) => kept.is_same(release),
        (AccountEntry::Settlement(kept), Event::Settled(settlement)) => kept.is_same(settlement),
        _ => false,
    }
}

// What a book and an account keep is of the event.
fn is_of_both(booked: &BookEntry, billed: &AccountEntry, period: u64, event: &Event) -> bool
    ensures { (result ≡ true) ↔ ((booked.now ∷ [] ≡ book_entry event.now period) × (billed.now ∷ [] ≡ account_entry event.now period)) }
{
    match (booked, billed, event) {
        (
            BookEntry::Cdr {
                cdr,
                cost,
                period: dated,
            },
            AccountEntry::Charge(charge),
            Event::Cdr {
                cdr: posted,
                cost: price,
            },
        ) => {
            *dated == period
                && cost.is_same(price)
                && cdr.is_same(posted)
                && charge.is_same(&charge_of(posted, *price, period))
        }
        (
            BookEntry::Credit {
                cdr,
                amount,
                period: dated,
            },
            AccountEntry::Credit(credit),
            Event::Credit {
                cdr: posted,
                amount: taken,
            },
        ) => {
            *dated == period
                && amount.is_same(taken)
                && cdr.is_same(posted)
                && credit.is_same(&credit_of(posted, *taken, period))
        }
        _ => false,
    }
}

/// The entry of the order names the event in a period.
pub(crate) fn names(
    books: &[Book],
    accounts: &[Account],
    period: u64,
    entry: OrderEntry,
    event: &Event,
) -> bool
    ensures { (result ≡ true) ↔ Names (entries_of_books books.now) (entries_of_accounts accounts.now) period entry event.now }
{
    match entry {
        OrderEntry::InBook { book } => match book_entry_at(books, book) {
            Some(kept) => is_of_book(kept, period, event),
            None => false,
        },
        OrderEntry::InAccount { account } => match account_entry_at(accounts, account) {
            Some(kept) => is_of_account(kept, period, event),
            None => false,
        },
        OrderEntry::InBoth { book, account } => {
            let kept = (
                book_entry_at(books, book),
                account_entry_at(accounts, account),
            );
            match kept {
                (Some(booked), Some(billed)) => is_of_both(booked, billed, period, event),
                _ => false,
            }
        }
        OrderEntry::Close => match event {
            Event::Closed { period: closed } => *closed == period,
            _ => false,
        },
    }
}

/// The events that an order names in books and accounts, one for each of its entries.
///
/// `Torn` with the first entry that names none: its place is not there, the entries in book and account are not of one event, or
/// they were kept in another period.
pub fn resolve(
    alloc: Global,
    order: &[OrderEntry],
    books: &[Book],
    accounts: &[Account],
) -> Result<Vec<Event>, ResolveFault>
    ensures ok { IfOk result (λ events. Resolves (entries_of_books books.now) (entries_of_accounts accounts.now) order.now events.items) }
    ensures torn { (number : ℕ) → result ≡ Err (fault.Torn number) → FailsAt (entries_of_books books.now) (entries_of_accounts accounts.now) order.now number }
{
    let mut events = Vec::with_capacity(alloc, order.len())?;
    let mut period = 0;
    for entry in order {
        let Some(event) = named(alloc, books, accounts, period, *entry)? else {
            return Err(ResolveFault::Torn {
                entry: events.len(),
            });
        };
        if let OrderEntry::Close = entry {
            period += 1;
        }
        events.push(event)?;
    }
    Ok(events)
}
