//! What a command comes to at its place in the order.

ghost use Rattle.std.specs.Prelude.{◌≡◌, true, false, is_some, Some, None};
ghost use Rattle.std.specs.Option.{option_copied};
ghost use Rattle.cdr_checks.specs.Parties.{operator_of_command, provider_of_command};
ghost use Rattle.period_order.specs.Decided.{Decides, order_with};
ghost use Rattle.period_order.specs.Order.{current_of, point_of};

use super::decided::{Decided, Outcome};
use super::order::Order;
use cdr_checks::Command;
use ocpi_types::Config;
use operator_book::Book;
use provider_account::Account;

pub(crate) mod authorize;
mod close;
mod full;
mod outcomes;
pub(crate) mod post;
mod put_tariff;
mod put_token;
mod read;
mod release;
mod settle;
mod statement;

/// Gives the command its place in the order: by what the book of its operator and the account of its provider have, and by
/// what the order has, it is replied to, and the order keeps its event, without taking memory. A book is given exactly where
/// the command looks into one, and an account likewise.
pub fn decide(
    config: &Config,
    command: Command,
    book: Option<&Book>,
    account: Option<&Account>,
    order: &mut Order,
) -> Decided
    requires book { is_some book ≡ is_some (operator_of_command command) }
    requires account { is_some account ≡ is_some (provider_of_command command) }
    requires room { order.old.has_room ≡ true }
    ensures point { result.point ≡ point_of order.old }
    ensures period { result.period ≡ current_of order.old }
    ensures outcome { Decides config.now (option_copied book.entry) (option_copied account.entry) order.old command result.outcome }
    ensures order { order.new ≡ order_with config.now (option_copied book.entry) (option_copied account.entry) order.old result.outcome }
{
    let point = order.point();
    let period = order.current();
    let outcome = outcome(config, command, book, account, order);
    Decided {
        point,
        period,
        outcome,
    }
}

fn the_book(book: Option<&Book>) -> &Book
    requires { is_some book ≡ true }
    ensures { option_copied book.entry ≡ Some result.now }
{
    book.unwrap()
}

fn the_account(account: Option<&Account>) -> &Account
    requires { is_some account ≡ true }
    ensures { option_copied account.entry ≡ Some result.now }
{
    account.unwrap()
}

// States that there is no book.
fn no_book(book: Option<&Book>)
    requires { is_some book ≡ false }
    ensures { option_copied book.entry ≡ None }
{
    let _ = book;
}

// States that there is no account.
fn no_account(account: Option<&Account>)
    requires { is_some account ≡ false }
    ensures { option_copied account.entry ≡ None }
{
    let _ = account;
}

fn outcome(
    config: &Config,
    command: Command,
    book: Option<&Book>,
    account: Option<&Account>,
    order: &mut Order,
) -> Outcome
    requires book { is_some book ≡ is_some (operator_of_command command) }
    requires account { is_some account ≡ is_some (provider_of_command command) }
    requires room { order.old.has_room ≡ true }
    ensures outcome { Decides config.now (option_copied book.entry) (option_copied account.entry) order.old command result }
    ensures order { order.new ≡ order_with config.now (option_copied book.entry) (option_copied account.entry) order.old result }
{
    match command {
        Command::PutTariff(tariff) => {
            no_account(account);
            put_tariff::put_tariff(config, tariff, the_book(book), order)
        }
        Command::PutToken(token) => {
            no_book(book);
            put_token::put_token(config, token, the_account(account), order)
        }
        Command::Authorize(ask) => {
            no_book(book);
            authorize::authorize(config, ask, the_account(account), order)
        }
        Command::Release(release) => {
            no_book(book);
            release::release(config, release, the_account(account), order)
        }
        Command::Post(checked) => post::post(
            config,
            checked,
            the_book(book),
            the_account(account),
            order,
        ),
        Command::Close(close) => {
            no_book(book);
            no_account(account);
            close::close(config, close, order)
        }
        Command::Settle(settlement) => {
            no_book(book);
            settle::settle(config, settlement, the_account(account), order)
        }
        Command::Exposure(ask) => {
            no_book(book);
            read::exposure(config, ask, the_account(account), order)
        }
        Command::Find(find) => {
            no_account(account);
            read::find(config, find, the_book(book), order)
        }
        Command::Statement(ask) => {
            no_book(book);
            no_account(account);
            statement::statement(config, ask, order)
        }
    }
}
