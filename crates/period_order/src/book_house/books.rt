//! The books and accounts of a house.

ghost use Rattle.std.specs.Prelude.{◌≡◌, ◌<◌, [], map, option_and_then, slice_get, length, IfOk, IfSome, OnOk};
ghost use Rattle.std.specs.Option.{option_copied};
ghost use Rattle.period_order.specs.Inner.Kept.{AccountHasRoom, BookHasRoom};
ghost use Rattle.period_order.specs.Resolved.{entries_of_accounts, entries_of_books};

use ocpi_types::Config;
use operator_book::Book;
use provider_account::Account;
use std::alloc::{AllocError, Global};

fn entries_of_book(books: &[Book], number: usize) -> usize {
    match books.get(number) {
        Some(book) => book.entries().len(),
        None => 0,
    }
}

fn entries_of_account(accounts: &[Account], number: usize) -> usize {
    match accounts.get(number) {
        Some(account) => account.entries().len(),
        None => 0,
    }
}

/// An empty book for each operator, with room for as many entries as the other book of its number has.
pub fn books(alloc: Global, config: &Config, others: &[Book]) -> Result<Vec<Book>, AllocError>
    ensures { IfOk result (λ books. entries_of_books books.items ≡ map (λ operator. []) config.now.operators) }
{
    let mut books = Vec::new(alloc);
    for _operator in config.operators.as_slice() {
        let mut book = Book::new(alloc);
        book.make_room(entries_of_book(others, books.len()))?;
        books.push(book)?;
    }
    Ok(books)
}

/// An empty account for each provider, with room for as many entries as the other account of its number has.
pub fn accounts(
    alloc: Global,
    config: &Config,
    others: &[Account],
) -> Result<Vec<Account>, AllocError>
    ensures { IfOk result (λ accounts. entries_of_accounts accounts.items ≡ map (λ provider. []) config.now.providers) }
{
    let mut accounts = Vec::new(alloc);
    for _provider in config.providers.as_slice() {
        let mut account = Account::new(alloc);
        account.make_room(entries_of_account(others, accounts.len()))?;
        accounts.push(account)?;
    }
    Ok(accounts)
}

/// Makes room for one more entry in the book of that number, where one is given.
pub fn reserve_book(books: &mut Vec<Book>, number: Option<usize>) -> Result<(), AllocError>
    requires { IfSome number (λ n. n < length books.old.items) }
    ensures entries { entries_of_books books.new.items ≡ entries_of_books books.old.items }
    ensures room { OnOk result (BookHasRoom books.new.items number) }
{
    if let Some(number) = number {
        books[number].reserve()?;
    }
    Ok(())
}

/// Makes room for one more entry in the account of that number, where one is given.
pub fn reserve_account(accounts: &mut Vec<Account>, number: Option<usize>) -> Result<(), AllocError>
    requires { IfSome number (λ n. n < length accounts.old.items) }
    ensures entries { entries_of_accounts accounts.new.items ≡ entries_of_accounts accounts.old.items }
    ensures room { OnOk result (AccountHasRoom accounts.new.items number) }
{
    if let Some(number) = number {
        accounts[number].reserve()?;
    }
    Ok(())
}

/// The book of that number, where one is given.
pub fn book_at(books: &[Book], number: Option<usize>) -> Option<&Book>
    ensures { option_copied result ≡ option_and_then (slice_get books.now) number }
{
    match number {
        Some(number) => books.get(number),
        None => None,
    }
}

/// The account of that number, where one is given.
pub fn account_at(accounts: &[Account], number: Option<usize>) -> Option<&Account>
    ensures { option_copied result ≡ option_and_then (slice_get accounts.now) number }
{
    match number {
        Some(number) => accounts.get(number),
        None => None,
    }
}
