//! An event put as it is given.

ghost use Rattle.std.specs.Prelude.{◌≡◌, ◌<◌, ◌++◌, [], ◌∷◌, List, length, option_and_then, slice_get, true, IfOk, IfSome};
ghost use Rattle.plain_house.specs.declared.event.Event.{Event};
ghost use Rattle.plain_house.specs.Entries.{account_entry, book_entry};
ghost use Rattle.plain_house.specs.Legal.{IsLegal};
ghost use Rattle.period_order.specs.Decided.{account_length, book_length};
ghost use Rattle.period_order.specs.Inner.Kept.{AccountHasRoom, AccountTakesAt, AreKept, BookHasRoom, BookTakesAt, OneEach};
ghost use Rattle.period_order.specs.Kept.{with_added};
ghost use Rattle.period_order.specs.Order.{current_of};
ghost use Rattle.period_order.specs.Places.{order_entry};
ghost use Rattle.period_order.specs.Resolved.{entries_of_accounts, entries_of_books};

use super::order_entry::{account_length, book_length, order_entry};
use super::parties::{account_of_event, book_of_event};
use super::takes::{account_takes, book_takes};
use crate::book_house::keep::{put_in_accounts, put_in_books, reserve};
use crate::laws::events_are_kept;
use crate::order::Order;
use cdr_checks::commands_have_parties;
use ocpi_types::{Config, TryCopy};
use operator_book::Book;
use plain_house::{Event, events_are_of_their_command, verdicts_are_of_own_entries};
use provider_account::Account;
use std::alloc::AllocError;

// Puts the event's entries, for which there is room, and what the order keeps of it.
fn add(
    config: &Config,
    books: &mut Vec<Book>,
    book: Option<usize>,
    accounts: &mut Vec<Account>,
    account: Option<usize>,
    order: &mut Order,
    event: Event,
)
    requires book { IfSome book (λ n. n < length books.old.items) }
    requires account { IfSome account (λ n. n < length accounts.old.items) }
    requires room_in_book { BookHasRoom books.old.items book }
    requires room_in_account { AccountHasRoom accounts.old.items account }
    requires room_in_order { order.old.has_room ≡ true }
    requires book_takes { BookTakesAt books.old.items book event }
    requires account_takes { AccountTakesAt accounts.old.items account (current_of order.old) event }
    ensures books { entries_of_books books.new.items ≡ with_added (entries_of_books books.old.items) book (book_entry event (current_of order.old)) }
    ensures accounts { entries_of_accounts accounts.new.items ≡ with_added (entries_of_accounts accounts.old.items) account (account_entry event (current_of order.old)) }
    ensures order { order.new.entries ≡ order.old.entries ++ order_entry config.now (book_length (option_and_then (slice_get books.old.items) book))
        (account_length (option_and_then (slice_get accounts.old.items) account)) event ∷ [] }
{
    let period = order.current();
    let in_book = book_length(books.as_slice(), book);
    let in_account = account_length(accounts.as_slice(), account);
    order.add(order_entry(config, in_book, in_account, &event));
    put_in_accounts(accounts, account, &event, period);
    put_in_books(books, book, event, period);
}

/// Puts the event where its book and its account are there and take it, as they do behind each legal list that books, accounts
/// and order keep, if the list with the event is legal.
pub fn put(
    config: &Config,
    books: &mut Vec<Book>,
    accounts: &mut Vec<Account>,
    order: &mut Order,
    event: &Event,
) -> Result<bool, AllocError>
    requires { OneEach config.now (entries_of_books books.old.items) (entries_of_accounts accounts.old.items) }
    ensures each { OneEach config.now (entries_of_books books.new.items) (entries_of_accounts accounts.new.items) }
    ensures put { IfOk result (λ is_put. is_put ≡ true → (events : List Event) → AreKept config.now books.old.items accounts.old.items order.old events →
        IsLegal config.now (events ++ event.now ∷ []) → AreKept config.now books.new.items accounts.new.items order.new (events ++ event.now ∷ [])) }
    ensures legal { IfOk result (λ is_put. (events : List Event) → AreKept config.now books.old.items accounts.old.items order.old events →
        IsLegal config.now (events ++ event.now ∷ []) → is_put ≡ true) }
{
    commands_have_parties();
    events_are_kept();
    events_are_of_their_command();
    verdicts_are_of_own_entries();
    config.has_distinct_parts();
    let book = book_of_event(config, event);
    let account = account_of_event(config, event);
    let period = order.current();
    if !book_takes(books.as_slice(), book, event) {
        return Ok(false);
    }
    if !account_takes(config, accounts.as_slice(), account, period, event) {
        return Ok(false);
    }
    reserve(books, book, accounts, account, order)?;
    let event = event.copy(*books.allocator())?;
    add(config, books, book, accounts, account, order, event);
    Ok(true)
}
