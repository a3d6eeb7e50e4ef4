//! Putting an event's entries, once the event has its place in the order.

ghost use Rattle.std.specs.Prelude.{◌≡◌, ◌++◌, true};
ghost use Rattle.plain_house.specs.Entries.{account_entry, book_entry};
ghost use Rattle.period_order.specs.Decided.{AccountTakes, BookTakes};

use operator_book::Book;
use plain_house::{Event, charge_of, credit_of};
use provider_account::Account;

/// Puts the event's entry into the account of its provider, without taking memory.
pub fn put_in_account(account: &mut Account, event: &Event, period: u64)
    requires room { account.old.has_room ≡ true }
    requires takes { AccountTakes account.old.entries period event.now }
    ensures { account.new.entries ≡ account.old.entries ++ account_entry event.now period }
{
    match event {
        Event::Token(token) => account.put_token(*token),
        Event::Authorised(hold) => account.hold(*hold),
        Event::Released(release) => account.release(*release),
        Event::Cdr { cdr, cost } => account.bill(charge_of(cdr, *cost, period)),
        Event::Credit { cdr, amount } => account.credit(credit_of(cdr, *amount, period)),
        Event::Settled(settlement) => account.settle(*settlement),
        Event::Tariff(_) | Event::Closed { .. } => {}
    }
}

/// Puts the event's entry into the book of its operator, without taking memory.
pub fn put_in_book(book: &mut Book, event: Event, period: u64)
    requires room { book.old.has_room ≡ true }
    requires takes { BookTakes book.old.entries event }
    ensures { book.new.entries ≡ book.old.entries ++ book_entry event period }
{
    match event {
        Event::Tariff(tariff) => book.put_tariff(tariff),
        Event::Cdr { cdr, cost } => book.put_cdr(cdr, cost, period),
        Event::Credit { cdr, amount } => book.put_credit(cdr, amount, period),
        Event::Token(_)
        | Event::Authorised(_)
        | Event::Released(_)
        | Event::Settled(_)
        | Event::Closed { .. } => {}
    }
}
