//! Books and accounts, each under a lock.

ghost use Rattle.std.specs.Prelude.{◌≡◌, [], map, option_and_then, option_map, slice_get, None, IfOk, OnErr, OnOk};
ghost use Rattle.std.specs.Option.{option_copied};
ghost use Rattle.house_core.specs.Inner.Shown.{changed_lock, freed_account, freed_book, roomy_account, roomy_book, shown_accounts, shown_books};

use ocpi_types::Config;
use operator_book::Book;
use provider_account::Account;
use std::alloc::{AllocError, Global};

/// An operator's book, and the number of the call that holds its lock.
#[derive(Drop)]
pub struct BookLock {
    pub holder: Option<usize>,
    pub book: Book,
}

/// A provider's account, and the number of the call that holds its lock.
#[derive(Drop)]
pub struct AccountLock {
    pub holder: Option<usize>,
    pub account: Account,
}

/// An empty book for each operator, all free.
pub fn free_books(alloc: Global, config: &Config) -> Result<Vec<BookLock>, AllocError>
    ensures { IfOk result (λ locks. shown_books locks.items ≡ map (λ operator. record { holder = None; entries = [] }) config.now.operators) }
{
    let mut locks = Vec::new(alloc);
    for _operator in config.operators.as_slice() {
        locks.push(BookLock {
            holder: None,
            book: Book::new(alloc),
        })?;
    }
    Ok(locks)
}

/// An empty account for each provider, all free.
pub fn free_accounts(alloc: Global, config: &Config) -> Result<Vec<AccountLock>, AllocError>
    ensures { IfOk result (λ locks. shown_accounts locks.items ≡ map (λ provider. record { holder = None; entries = [] }) config.now.providers) }
{
    let mut locks = Vec::new(alloc);
    for _provider in config.providers.as_slice() {
        locks.push(AccountLock {
            holder: None,
            account: Account::new(alloc),
        })?;
    }
    Ok(locks)
}

/// Gives the lock of that book back, where one is given.
pub fn free_book(locks: &mut Vec<BookLock>, number: Option<usize>)
    ensures { locks.new.items ≡ changed_lock freed_book locks.old.items number }
{
    let Some(number) = number else {
        return;
    };
    if number >= locks.len() {
        return;
    }
    locks[number].holder = None;
}

/// Gives the lock of that account back, where one is given.
pub fn free_account(locks: &mut Vec<AccountLock>, number: Option<usize>)
    ensures { locks.new.items ≡ changed_lock freed_account locks.old.items number }
{
    let Some(number) = number else {
        return;
    };
    if number >= locks.len() {
        return;
    }
    locks[number].holder = None;
}

/// Makes room for one more entry in that book, where one is given.
pub fn reserve_book(locks: &mut Vec<BookLock>, number: Option<usize>) -> Result<(), AllocError>
    ensures ok { OnOk result (locks.new.items ≡ changed_lock roomy_book locks.old.items number) }
    ensures err { OnErr result (locks.new.items ≡ locks.old.items) }
{
    let Some(number) = number else {
        return Ok(());
    };
    if number >= locks.len() {
        return Ok(());
    }
    locks[number].book.reserve()?;
    Ok(())
}

/// Makes room for one more entry in that account, where one is given.
pub fn reserve_account(
    locks: &mut Vec<AccountLock>,
    number: Option<usize>,
) -> Result<(), AllocError>
    ensures ok { OnOk result (locks.new.items ≡ changed_lock roomy_account locks.old.items number) }
    ensures err { OnErr result (locks.new.items ≡ locks.old.items) }
{
    let Some(number) = number else {
        return Ok(());
    };
    if number >= locks.len() {
        return Ok(());
    }
    locks[number].account.reserve()?;
    Ok(())
}

/// The book of that number, where one is given.
pub fn book_at(locks: &[BookLock], number: Option<usize>) -> Option<&Book>
    ensures { option_copied result ≡ option_and_then (λ n. option_map (λ lock. lock.book) (slice_get locks.now n)) number }
{
    let number = number?;
    let lock = locks.get(number)?;
    Some(&lock.book)
}

/// The account of that number, where one is given.
pub fn account_at(locks: &[AccountLock], number: Option<usize>) -> Option<&Account>
    ensures { option_copied result ≡ option_and_then (λ n. option_map (λ lock. lock.account) (slice_get locks.now n)) number }
{
    let number = number?;
    let lock = locks.get(number)?;
    Some(&lock.account)
}
