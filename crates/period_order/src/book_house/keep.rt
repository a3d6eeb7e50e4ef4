//! A command given its place in the order, and its event put.

ghost use Rattle.std.specs.Prelude.{◌≡◌, ◌<◌, true, List, length, IfOk, IfSome, OnErr, OnOk};
ghost use Rattle.cdr_checks.specs.Admission.{IsAdmitted};
ghost use Rattle.plain_house.specs.declared.event.Event.{Event};
ghost use Rattle.plain_house.specs.Entries.{account_entry, book_entry};
ghost use Rattle.plain_house.specs.House.{events_after};
ghost use Rattle.period_order.specs.Decided.{event_of};
ghost use Rattle.period_order.specs.Inner.Collected.{IsReached, without_event};
ghost use Rattle.period_order.specs.Judging.{MayJudge};
ghost use Rattle.period_order.specs.Kept.{account_number, book_number, with_added};
ghost use Rattle.period_order.specs.Inner.Kept.{AccountHasRoom, AccountTakesAt, AreAsBefore, AreKept, BookHasRoom, BookTakesAt, OneEach, with_event_added};
ghost use Rattle.period_order.specs.Resolved.{entries_of_accounts, entries_of_books};

use super::books::{account_at, book_at, reserve_account, reserve_book};
use crate::decided::{Decided, Outcome};
use crate::decision::decide;
use crate::laws::judged_by_own_entries;
use crate::numbers::{operator_number, provider_number};
use crate::order::Order;
use crate::puts::{put_in_account, put_in_book};
use cdr_checks::{Command, commands_have_parties};
use ocpi_types::Config;
use operator_book::Book;
use plain_house::{
    Event, commands_keep_lists_legal, entries_are_dated, events_are_of_their_command,
};
use provider_account::Account;
use std::alloc::AllocError;

fn book_number(config: &Config, command: &Command) -> Option<usize>
    ensures { result ≡ book_number config.now command.now }
{
    let operator = command.operator()?;
    Some(operator_number(config, &operator))
}

fn account_number(config: &Config, command: &Command) -> Option<usize>
    ensures { result ≡ account_number config.now command.now }
{
    let provider = command.provider()?;
    Some(provider_number(config, &provider))
}

/// Makes room for one more entry in the book and the account of these numbers, where they are given, and in the order.
pub fn reserve(
    books: &mut Vec<Book>,
    book: Option<usize>,
    accounts: &mut Vec<Account>,
    account: Option<usize>,
    order: &mut Order,
) -> Result<(), AllocError>
    requires book { IfSome book (λ n. n < length books.old.items) }
    requires account { IfSome account (λ n. n < length accounts.old.items) }
    ensures books { entries_of_books books.new.items ≡ entries_of_books books.old.items }
    ensures accounts { entries_of_accounts accounts.new.items ≡ entries_of_accounts accounts.old.items }
    ensures order { order.new.entries ≡ order.old.entries }
    ensures in_book { OnOk result (BookHasRoom books.new.items book) }
    ensures in_account { OnOk result (AccountHasRoom accounts.new.items account) }
    ensures in_order { OnOk result (order.new.has_room ≡ true) }
{
    reserve_book(books, book)?;
    reserve_account(accounts, account)?;
    order.reserve()?;
    Ok(())
}

/// Puts the event's entry into the account of that number, where one is given.
pub fn put_in_accounts(
    accounts: &mut Vec<Account>,
    account: Option<usize>,
    event: &Event,
    period: u64,
)
    requires number { IfSome account (λ n. n < length accounts.old.items) }
    requires room { AccountHasRoom accounts.old.items account }
    requires takes { AccountTakesAt accounts.old.items account period event.now }
    ensures { entries_of_accounts accounts.new.items ≡ with_added (entries_of_accounts accounts.old.items) account (account_entry event.now period) }
{
    if let Some(number) = account {
        put_in_account(&mut accounts[number], event, period);
    }
}

/// Puts the event's entry into the book of that number, where one is given.
pub fn put_in_books(books: &mut Vec<Book>, book: Option<usize>, event: Event, period: u64)
    requires number { IfSome book (λ n. n < length books.old.items) }
    requires room { BookHasRoom books.old.items book }
    requires takes { BookTakesAt books.old.items book event }
    ensures { entries_of_books books.new.items ≡ with_added (entries_of_books books.old.items) book (book_entry event period) }
{
    if let Some(number) = book {
        put_in_book(&mut books[number], event, period);
    }
}

// Puts the event's entries, where there is an event.
fn put(
    books: &mut Vec<Book>,
    book: Option<usize>,
    accounts: &mut Vec<Account>,
    account: Option<usize>,
    event: Option<Event>,
    period: u64,
)
    requires book { IfSome book (λ n. n < length books.old.items) }
    requires account { IfSome account (λ n. n < length accounts.old.items) }
    requires room_in_book { BookHasRoom books.old.items book }
    requires room_in_account { AccountHasRoom accounts.old.items account }
    requires book_takes { IfSome event (λ e. BookTakesAt books.old.items book e) }
    requires account_takes { IfSome event (λ e. AccountTakesAt accounts.old.items account period e) }
    ensures books { entries_of_books books.new.items ≡ with_event_added (entries_of_books books.old.items) book (λ e. book_entry e period) event }
    ensures accounts { entries_of_accounts accounts.new.items ≡ with_event_added (entries_of_accounts accounts.old.items) account (λ e. account_entry e period) event }
{
    if let Some(event) = event {
        put_in_accounts(accounts, account, &event, period);
        put_in_books(books, book, event, period);
    }
}

// The outcome without its event, and the event.
fn parted(outcome: Outcome) -> (Outcome, Option<Event>)
    ensures left { result.0 ≡ without_event outcome }
    ensures event { result.1 ≡ event_of outcome }
{
    match outcome {
        Outcome::Replied { reply, event } => (Outcome::Replied { reply, event: None }, event),
        Outcome::Closed { period } => (Outcome::Closed { period }, Some(Event::Closed { period })),
        Outcome::Stated { ask } => (Outcome::Stated { ask }, None),
    }
}

/// Decides the command by `config`, gives it its place in the order and puts its event, where there is memory for it: behind each
/// list that is legal under `base` and that books, accounts and order keep.
pub fn keep(
    config: &Config,
    base: &Config,
    books: &mut Vec<Book>,
    accounts: &mut Vec<Account>,
    order: &mut Order,
    command: Command,
) -> Result<Decided, AllocError>
    requires admitted { IsAdmitted config.now command }
    requires judges { MayJudge config.now base.now }
    requires each { OneEach base.now (entries_of_books books.old.items) (entries_of_accounts accounts.old.items) }
    ensures each { OneEach base.now (entries_of_books books.new.items) (entries_of_accounts accounts.new.items) }
    ensures ok { IfOk result (λ decided. (events : List Event) → AreKept base.now books.old.items accounts.old.items order.old events →
        IsReached config.now base.now events command decided (events_after config.now events command)) }
    ensures kept { IfOk result (λ decided. (events : List Event) → AreKept base.now books.old.items accounts.old.items order.old events →
        AreKept base.now books.new.items accounts.new.items order.new (events_after config.now events command)) }
    ensures err { OnErr result (AreAsBefore books.old.items books.new.items accounts.old.items accounts.new.items order.old order.new) }
{
    commands_have_parties();
    commands_keep_lists_legal();
    entries_are_dated();
    events_are_of_their_command();
    judged_by_own_entries();
    base.has_distinct_parts();
    let book = book_number(base, &command);
    let account = account_number(base, &command);
    reserve(books, book, accounts, account, order)?;
    let given_book = book_at(books.as_slice(), book);
    let given_account = account_at(accounts.as_slice(), account);
    let Decided {
        point,
        period,
        outcome,
    } = decide(config, command, given_book, given_account, order);
    let (outcome, event) = parted(outcome);
    put(books, book, accounts, account, event, period);
    Ok(Decided {
        point,
        period,
        outcome,
    })
}
