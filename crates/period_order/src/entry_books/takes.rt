//! Whether a book and an account take an event.

ghost use Rattle.std.specs.Prelude.{◌≡◌, ◌↔◌, ◌<◌, ℕ, length, true, IfSome};
ghost use Rattle.plain_house.specs.declared.event.Event.TheVariants as event;
ghost use Rattle.period_order.specs.Decided.{AccountTakes, BookTakes};
ghost use Rattle.period_order.specs.Inner.Gives.{AccountGives, AccountGivesAt};
ghost use Rattle.period_order.specs.Inner.Kept.{AccountTakesAt, BookTakesAt};

use crate::decision::authorize::hold_within;
use crate::decision::post::over_limit;
use cdr_checks::Authorize;
use ocpi_json::same::Same;
use ocpi_types::{Config, TokenKind};
use operator_book::Book;
use plain_house::{Event, Hold, charge_of};
use provider_account::Account;

// No tariff version is stored twice.
fn is_taken_by_book(book: &Book, event: &Event) -> bool
    ensures { (result ≡ true) ↔ BookTakes book.now.entries event.now }
{
    match event {
        Event::Tariff(tariff) => book.judge_tariff(tariff).is_none(),
        Event::Token(_)
        | Event::Authorised(_)
        | Event::Released(_)
        | Event::Cdr { .. }
        | Event::Credit { .. }
        | Event::Settled(_)
        | Event::Closed { .. } => true,
    }
}

// The hold is the one that an authorisation would be given, of whatever token.
fn is_next_hold(config: &Config, account: &Account, hold: &Hold) -> bool
    ensures takes { result ≡ true → (period : ℕ) → AccountTakes account.now.entries period (event.Authorised hold.now) }
    ensures given { (period : ℕ) → AccountGives config.now account.now.entries period (event.Authorised hold.now) → result ≡ true }
{
    let ask = Authorize {
        operator: hold.operator,
        provider: hold.provider,
        uid: hold.reference,
        kind: TokenKind::Other,
        currency: hold.currency,
    };
    if account.over_credit(config, &ask).is_some() {
        return false;
    }
    hold_within(config, &ask, account).is_same(hold)
}

// A hold is the provider's next, and no exposure passes its limit.
fn is_taken_by_account(config: &Config, account: &Account, period: u64, event: &Event) -> bool
    ensures takes { result ≡ true → AccountTakes account.now.entries period event.now }
    ensures given { AccountGives config.now account.now.entries period event.now → result ≡ true }
{
    match event {
        Event::Authorised(hold) => is_next_hold(config, account, hold),
        Event::Cdr { cdr, cost } => {
            over_limit(config, account, &charge_of(cdr, *cost, period)).is_none()
        }
        Event::Tariff(_)
        | Event::Token(_)
        | Event::Released(_)
        | Event::Credit { .. }
        | Event::Settled(_)
        | Event::Closed { .. } => true,
    }
}

/// The book of that number is there and takes the event, where one is given.
pub fn book_takes(books: &[Book], number: Option<usize>, event: &Event) -> bool
    ensures within { result ≡ true → IfSome number (λ n. n < length books.now) }
    ensures takes { result ≡ true → BookTakesAt books.now number event.now }
    ensures taken { IfSome number (λ n. n < length books.now) → BookTakesAt books.now number event.now → result ≡ true }
{
    let Some(number) = number else {
        return true;
    };
    match books.get(number) {
        Some(book) => is_taken_by_book(book, event),
        None => false,
    }
}

/// The account of that number is there and takes the event, where one is given.
pub fn account_takes(
    config: &Config,
    accounts: &[Account],
    number: Option<usize>,
    period: u64,
    event: &Event,
) -> bool
    ensures within { result ≡ true → IfSome number (λ n. n < length accounts.now) }
    ensures takes { result ≡ true → AccountTakesAt accounts.now number period event.now }
    ensures given { IfSome number (λ n. n < length accounts.now) → AccountGivesAt config.now accounts.now number period event.now → result ≡ true }
{
    let Some(number) = number else {
        return true;
    };
    match accounts.get(number) {
        Some(account) => is_taken_by_account(config, account, period, event),
        None => false,
    }
}
