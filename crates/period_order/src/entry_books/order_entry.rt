//! What the order keeps of an event.

ghost use Rattle.std.specs.Prelude.{◌≡◌, option_and_then, slice_get};
ghost use Rattle.period_order.specs.Decided.{account_length, book_length};
ghost use Rattle.period_order.specs.Places.{order_entry};

use crate::book_house::books::{account_at, book_at};
use crate::numbers::{in_account, in_book};
use crate::order_entry::OrderEntry;
use ocpi_types::Config;
use operator_book::Book;
use plain_house::Event;
use provider_account::Account;

/// How many entries the book of that number has; 0 where none is given.
pub fn book_length(books: &[Book], number: Option<usize>) -> usize
    ensures { result ≡ book_length (option_and_then (slice_get books.now) number) }
{
    match book_at(books, number) {
        Some(book) => book.entries().len(),
        None => 0,
    }
}

/// How many entries the account of that number has; 0 where none is given.
pub fn account_length(accounts: &[Account], number: Option<usize>) -> usize
    ensures { result ≡ account_length (option_and_then (slice_get accounts.now) number) }
{
    match account_at(accounts, number) {
        Some(account) => account.entries().len(),
        None => 0,
    }
}

/// What the order keeps of the event, where its book and its account have so many entries.
pub fn order_entry(config: &Config, book: usize, account: usize, event: &Event) -> OrderEntry
    ensures { result ≡ order_entry config.now book account event.now }
{
    match event {
        Event::Tariff(tariff) => OrderEntry::InBook {
            book: in_book(config, &tariff.operator, book),
        },
        Event::Token(token) => OrderEntry::InAccount {
            account: in_account(config, &token.provider, account),
        },
        Event::Authorised(hold) => OrderEntry::InAccount {
            account: in_account(config, &hold.provider, account),
        },
        Event::Released(release) => OrderEntry::InAccount {
            account: in_account(config, &release.provider, account),
        },
        Event::Cdr { cdr, .. } | Event::Credit { cdr, .. } => OrderEntry::InBoth {
            book: in_book(config, &cdr.operator, book),
            account: in_account(config, &cdr.cdr_token.provider, account),
        },
        Event::Settled(settlement) => OrderEntry::InAccount {
            account: in_account(config, &settlement.provider, account),
        },
        Event::Closed { .. } => OrderEntry::Close,
    }
}
