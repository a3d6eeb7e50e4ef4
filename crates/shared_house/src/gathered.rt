//! What all locks and passes hold in the end.

ghost use Rattle.std.specs.Prelude.{All, ◌≡◌, ◌+◌, ◌*◌, ◌^◌, ◌≤◌, [], map, length, sum_by, count_by, vec_len, IfOk, OnOk};
ghost use Rattle.plain_house.specs.LegalEntries.{IsLegalAccount, IsLegalBook};
ghost use Rattle.period_order.specs.Order.{names_account, names_book};
ghost use Rattle.shared_house.specs.Calls.{call_adds_event};
ghost use Rattle.shared_house.specs.Points.{AreAdmitted};
ghost use Rattle.shared_house.specs.Counts.{total_of_account, total_of_book};

use crate::call::Call;
use crate::house::{House, Locks};
use crate::ledgers::{Configured, Names, Part, Rest, Shares};
use crate::locked::{LockedAccount, LockedBook, LockedOrder};
use crate::pass::Pass;
use operator_book::Book;
use period_order::OrderEntry;
use provider_account::Account;
use std::alloc::{AllocError, Global};
use std::sync::ledger::Share;
use std::sync::{Mutex, ledger};

/// What the locks and passes of a house held.
#[derive(Drop)]
pub struct Gathered {
    /// The order of events.
    pub entries: Vec<OrderEntry>,
    /// One for each operator, in the order of the configuration.
    pub books: Vec<Book>,
    /// One for each provider, in the order of the configuration.
    pub accounts: Vec<Account>,
    /// One list for each pass that was given, in the order given.
    pub calls: Vec<Vec<Call>>,
}

// The books, with their shares merged.
fn unlock_books<N: Names>(
    alloc: Global,
    locks: Vec<Mutex<LockedBook<N>>>,
    entries: &mut Share<N::BookEntries>,
    amounts: &mut Share<N::BookAmounts>,
) -> Result<Vec<Book>, AllocError>
    requires none { (entries.old.parts ≡ 0) × (amounts.old.parts ≡ 0) }
    requires nothing { (entries.old.amount ≡ 0) × (amounts.old.amount ≡ 0) }
    ensures len { IfOk result (λ books. vec_len books ≡ vec_len locks) }
    ensures legal { IfOk result (λ books. All (λ book. IsLegalBook N.BookEntries.config book.entries) books.items) }
    ensures parts { OnOk result ((entries.new.parts ≡ vec_len locks) × (amounts.new.parts ≡ vec_len locks)) }
    ensures entries { IfOk result (λ books. entries.new.amount ≡ sum_by (λ book. length book.entries) books.items) }
    ensures amounts { IfOk result (λ books. amounts.new.amount ≡ sum_by (λ book. total_of_book book.entries) books.items) }
{
    let mut books = Vec::new(alloc);
    for lock in locks {
        let LockedBook { book, shares } = lock.into_inner();
        let Shares {
            entries: some_entries,
            amounts: some_amounts,
        } = shares;
        entries.merge(some_entries);
        amounts.merge(some_amounts);
        books.push(book)?;
    }
    Ok(books)
}

// The accounts, with their shares merged.
fn unlock_accounts<N: Names>(
    alloc: Global,
    locks: Vec<Mutex<LockedAccount<N>>>,
    entries: &mut Share<N::AccountEntries>,
    amounts: &mut Share<N::AccountAmounts>,
) -> Result<Vec<Account>, AllocError>
    requires none { (entries.old.parts ≡ 0) × (amounts.old.parts ≡ 0) }
    requires nothing { (entries.old.amount ≡ 0) × (amounts.old.amount ≡ 0) }
    ensures len { IfOk result (λ accounts. vec_len accounts ≡ vec_len locks) }
    ensures legal { IfOk result (λ accounts. All (λ account. IsLegalAccount N.BookEntries.config account.entries) accounts.items) }
    ensures parts { OnOk result ((entries.new.parts ≡ vec_len locks) × (amounts.new.parts ≡ vec_len locks)) }
    ensures entries { IfOk result (λ accounts. entries.new.amount ≡ sum_by (λ account. length account.entries) accounts.items) }
    ensures amounts { IfOk result (λ accounts. amounts.new.amount ≡ sum_by (λ account. total_of_account account.entries) accounts.items) }
{
    let mut accounts = Vec::new(alloc);
    for lock in locks {
        let LockedAccount { account, shares } = lock.into_inner();
        let Shares {
            entries: some_entries,
            amounts: some_amounts,
        } = shares;
        entries.merge(some_entries);
        amounts.merge(some_amounts);
        accounts.push(account)?;
    }
    Ok(accounts)
}

// The calls, with the shares of the passes merged.
fn end_passes<N: Names>(
    alloc: Global,
    passes: Vec<Pass<N>>,
    events: &mut Share<N::Events>,
) -> Result<Vec<Vec<Call>>, AllocError>
    requires none { (events.old.parts ≡ 0) × (events.old.amount ≡ 0) }
    ensures parts { OnOk result (events.new.parts ≡ vec_len passes) }
    ensures apart { OnOk result (events.new.parts ≤ N.Events.parts) }
    ensures events { IfOk result (λ all. events.new.amount ≡ sum_by (λ calls. count_by call_adds_event calls.items) all.items) }
    ensures calls { IfOk result (λ all. map (λ calls. calls.items) all.items ≡ map (λ pass. pass.calls) passes.items) }
    ensures admitted { IfOk result (λ all. All (λ calls. AreAdmitted N.BookEntries.config calls.items) all.items) }
{
    let mut all = Vec::new(alloc);
    for pass in passes {
        let Pass {
            number: _,
            calls,
            events: some,
        } = pass;
        events.merge(some);
        all.push(calls)?;
    }
    Ok(all)
}

// The books of all locks. The ledgers' totals are the number of their entries and the sum of their amounts.
fn gather_books<N: Names>(
    alloc: Global,
    locks: Vec<Mutex<LockedBook<N>>>,
    mut all_entries: ledger::Book<N::BookEntries>,
    mut all_amounts: ledger::Book<N::BookAmounts>,
    mut entries: Share<N::BookEntries>,
    mut amounts: Share<N::BookAmounts>,
) -> Result<Vec<Book>, AllocError>
    requires none { (entries.parts ≡ 0) × (amounts.parts ≡ 0) }
    requires nothing { (entries.amount ≡ 0) × (amounts.amount ≡ 0) }
    requires all { (vec_len locks ≡ N.BookEntries.parts) × (vec_len locks ≡ N.BookAmounts.parts) }
    ensures len { IfOk result (λ books. vec_len books ≡ vec_len locks) }
    ensures legal { IfOk result (λ books. All (λ book. IsLegalBook N.BookEntries.config book.entries) books.items) }
    ensures entries { IfOk result (λ books. all_entries.total ≡ sum_by (λ book. length book.entries) books.items) }
    ensures amounts { IfOk result (λ books. all_amounts.total ≡ sum_by (λ book. total_of_book book.entries) books.items) }
{
    let books = unlock_books::<N>(alloc, locks, &mut entries, &mut amounts)?;
    all_entries.audit(&mut entries);
    all_amounts.audit(&mut amounts);
    Ok(books)
}

// The accounts of all locks, and the same.
fn gather_accounts<N: Names>(
    alloc: Global,
    locks: Vec<Mutex<LockedAccount<N>>>,
    mut all_entries: ledger::Book<N::AccountEntries>,
    mut all_amounts: ledger::Book<N::AccountAmounts>,
    mut entries: Share<N::AccountEntries>,
    mut amounts: Share<N::AccountAmounts>,
) -> Result<Vec<Account>, AllocError>
    requires none { (entries.parts ≡ 0) × (amounts.parts ≡ 0) }
    requires nothing { (entries.amount ≡ 0) × (amounts.amount ≡ 0) }
    requires all { (vec_len locks ≡ N.AccountEntries.parts) × (vec_len locks ≡ N.AccountAmounts.parts) }
    ensures len { IfOk result (λ accounts. vec_len accounts ≡ vec_len locks) }
    ensures legal { IfOk result (λ accounts. All (λ account. IsLegalAccount N.BookEntries.config account.entries) accounts.items) }
    ensures entries { IfOk result (λ accounts. all_entries.total ≡ sum_by (λ account. length account.entries) accounts.items) }
    ensures amounts { IfOk result (λ accounts. all_amounts.total ≡ sum_by (λ account. total_of_account account.entries) accounts.items) }
{
    let accounts = unlock_accounts::<N>(alloc, locks, &mut entries, &mut amounts)?;
    all_entries.audit(&mut entries);
    all_amounts.audit(&mut amounts);
    Ok(accounts)
}

// The calls of the passes, of which there are at most as many as the ledger has parts. The ledger's total is no less than the number
// of those that added an event, and that number where the passes are all there are.
fn gather_passes<N: Names>(
    alloc: Global,
    passes: Vec<Pass<N>>,
    mut all: ledger::Book<N::Events>,
    mut events: Share<N::Events>,
) -> Result<Vec<Vec<Call>>, AllocError>
    requires none { (events.parts ≡ 0) × (events.amount ≡ 0) }
    ensures no_others { OnOk result (vec_len passes ≤ N.Events.parts) }
    ensures at_most { IfOk result (λ calls. sum_by (λ list. count_by call_adds_event list.items) calls.items ≤ all.total) }
    ensures events { vec_len passes ≡ N.Events.parts → IfOk result (λ calls. all.total ≡ sum_by (λ list. count_by call_adds_event list.items) calls.items) }
    ensures calls { IfOk result (λ calls. map (λ list. list.items) calls.items ≡ map (λ pass. pass.calls) passes.items) }
    ensures admitted { IfOk result (λ calls. All (λ list. AreAdmitted N.BookEntries.config list.items) calls.items) }
{
    let calls = end_passes(alloc, passes, &mut events)?;
    all.audit(&mut events);
    Ok(calls)
}

// All of it, with the locks opened.
fn gather_open<N: Names>(
    alloc: Global,
    books: Vec<Mutex<LockedBook<N>>>,
    accounts: Vec<Mutex<LockedAccount<N>>>,
    locked: LockedOrder<N>,
    rest: Rest<N>,
    passes: Vec<Pass<N>>,
) -> Result<Gathered, AllocError>
    requires books { (vec_len books ≡ N.BookEntries.parts) × (vec_len books ≡ N.BookAmounts.parts) }
    requires accounts { (vec_len accounts ≡ N.AccountEntries.parts) × (vec_len accounts ≡ N.AccountAmounts.parts) }
    ensures order { IfOk result (λ all. all.entries.items ≡ locked.order.entries) }
    ensures books { IfOk result (λ all. count_by names_book all.entries.items ≡ sum_by (λ book. length book.entries) all.books.items) }
    ensures accounts { IfOk result (λ all. count_by names_account all.entries.items ≡ sum_by (λ account. length account.entries) all.accounts.items) }
    ensures amounts { IfOk result (λ all. sum_by (λ book. total_of_book book.entries) all.books.items ≡ sum_by (λ account. total_of_account account.entries) all.accounts.items) }
    ensures bounded { IfOk result (λ all. sum_by (λ book. total_of_book book.entries) all.books.items ≤ 10 ^ 12 * vec_len all.entries) }
    ensures no_others { OnOk result (vec_len passes ≤ N.Events.parts) }
    ensures at_most { IfOk result (λ all. sum_by (λ calls. count_by call_adds_event calls.items) all.calls.items ≤ vec_len all.entries) }
    ensures events { vec_len passes ≡ N.Events.parts → IfOk result (λ all. vec_len all.entries ≡ sum_by (λ calls. count_by call_adds_event calls.items) all.calls.items) }
    ensures calls { IfOk result (λ all. map (λ calls. calls.items) all.calls.items ≡ map (λ pass. pass.calls) passes.items) }
    ensures admitted { IfOk result (λ all. All (λ calls. AreAdmitted N.BookEntries.config calls.items) all.calls.items) }
    ensures each { IfOk result (λ all. (vec_len all.books ≡ vec_len books) × (vec_len all.accounts ≡ vec_len accounts)) }
    ensures legal_books { IfOk result (λ all. All (λ book. IsLegalBook N.BookEntries.config book.entries) all.books.items) }
    ensures legal_accounts { IfOk result (λ all. All (λ account. IsLegalAccount N.BookEntries.config account.entries) all.accounts.items) }
{
    let LockedOrder {
        order,
        book_entries: all_book_entries,
        book_amounts: all_book_amounts,
        account_entries: all_account_entries,
        account_amounts: all_account_amounts,
        events: all_events,
    } = locked;
    let Rest {
        book_entries,
        book_amounts,
        account_entries,
        account_amounts,
        events,
    } = rest;
    let entries = order.into_entries();
    let books = gather_books::<N>(
        alloc,
        books,
        all_book_entries,
        all_book_amounts,
        book_entries,
        book_amounts,
    )?;
    let accounts = gather_accounts::<N>(
        alloc,
        accounts,
        all_account_entries,
        all_account_amounts,
        account_entries,
        account_amounts,
    )?;
    let calls = gather_passes(alloc, passes, all_events, events)?;
    Ok(Gathered {
        entries,
        books,
        accounts,
        calls,
    })
}

// What these locks and passes hold.
pub(crate) fn gather_locks<N: Names>(
    alloc: Global,
    locks: Locks<N>,
    passes: Vec<Pass<N>>,
) -> Result<Gathered, AllocError>
    requires book_parts { (N.BookEntries.all ≡ N.BookEntries.parts) × (N.BookAmounts.all ≡ N.BookAmounts.parts) }
    requires account_parts { (N.AccountEntries.all ≡ N.AccountEntries.parts) × (N.AccountAmounts.all ≡ N.AccountAmounts.parts) }
    requires pass_parts { N.Events.all ≡ N.Events.parts }
    ensures books { IfOk result (λ all. count_by names_book all.entries.items ≡ sum_by (λ book. length book.entries) all.books.items) }
    ensures accounts { IfOk result (λ all. count_by names_account all.entries.items ≡ sum_by (λ account. length account.entries) all.accounts.items) }
    ensures amounts { IfOk result (λ all. sum_by (λ book. total_of_book book.entries) all.books.items ≡ sum_by (λ account. total_of_account account.entries) all.accounts.items) }
    ensures bounded { IfOk result (λ all. sum_by (λ book. total_of_book book.entries) all.books.items ≤ 10 ^ 12 * vec_len all.entries) }
    ensures no_others { OnOk result (vec_len passes ≤ N.Events.all) }
    ensures at_most { IfOk result (λ all. sum_by (λ calls. count_by call_adds_event calls.items) all.calls.items ≤ vec_len all.entries) }
    ensures events { vec_len passes ≡ N.Events.all → IfOk result (λ all. vec_len all.entries ≡ sum_by (λ calls. count_by call_adds_event calls.items) all.calls.items) }
    ensures calls { IfOk result (λ all. map (λ calls. calls.items) all.calls.items ≡ map (λ pass. pass.calls) passes.items) }
    ensures admitted { IfOk result (λ all. All (λ calls. AreAdmitted N.BookEntries.config calls.items) all.calls.items) }
    ensures each { IfOk result (λ all. (vec_len all.books ≡ length N.BookEntries.config.operators) × (vec_len all.accounts ≡ length N.BookEntries.config.providers)) }
    ensures legal_books { IfOk result (λ all. All (λ book. IsLegalBook N.BookEntries.config book.entries) all.books.items) }
    ensures legal_accounts { IfOk result (λ all. All (λ account. IsLegalAccount N.BookEntries.config account.entries) all.accounts.items) }
{
    let Locks {
        books,
        accounts,
        order,
        rest,
    } = locks;
    gather_open(
        alloc,
        books,
        accounts,
        order.into_inner(),
        rest.into_inner(),
        passes,
    )
}

/// What all locks of a house and these passes hold.
///
/// The order counts what the locks hold: it names a book for each entry of the books, and an account for each entry of the
/// accounts; what is booked in the books and in the accounts is one amount, in ten-thousandths, of at most 10^12 for each entry
/// of the order. It has an entry for each call of the passes that added an event, and no others where these are all passes of
/// the house. There are no more passes than those that were made with the house.
///
/// # Errors
///
/// `AllocError` where memory is refused; the house is gone.
pub fn gather<N: Names>(
    alloc: Global,
    house: House<N>,
    passes: Vec<Pass<N>>,
) -> Result<Gathered, AllocError>
    requires book_parts { (N.BookEntries.all ≡ N.BookEntries.parts) × (N.BookAmounts.all ≡ N.BookAmounts.parts) }
    requires account_parts { (N.AccountEntries.all ≡ N.AccountEntries.parts) × (N.AccountAmounts.all ≡ N.AccountAmounts.parts) }
    requires pass_parts { N.Events.all ≡ N.Events.parts }
    ensures books { IfOk result (λ all. count_by names_book all.entries.items ≡ sum_by (λ book. length book.entries) all.books.items) }
    ensures accounts { IfOk result (λ all. count_by names_account all.entries.items ≡ sum_by (λ account. length account.entries) all.accounts.items) }
    ensures amounts { IfOk result (λ all. sum_by (λ book. total_of_book book.entries) all.books.items ≡ sum_by (λ account. total_of_account account.entries) all.accounts.items) }
    ensures bounded { IfOk result (λ all. sum_by (λ book. total_of_book book.entries) all.books.items ≤ 10 ^ 12 * vec_len all.entries) }
    ensures no_others { OnOk result (vec_len passes ≤ N.Events.all) }
    ensures at_most { IfOk result (λ all. sum_by (λ calls. count_by call_adds_event calls.items) all.calls.items ≤ vec_len all.entries) }
    ensures events { vec_len passes ≡ N.Events.all → IfOk result (λ all. vec_len all.entries ≡ sum_by (λ calls. count_by call_adds_event calls.items) all.calls.items) }
    ensures calls { IfOk result (λ all. map (λ calls. calls.items) all.calls.items ≡ map (λ pass. pass.calls) passes.items) }
    ensures admitted { IfOk result (λ all. All (λ calls. AreAdmitted N.BookEntries.config calls.items) all.calls.items) }
    ensures each { IfOk result (λ all. (vec_len all.books ≡ length N.BookEntries.config.operators) × (vec_len all.accounts ≡ length N.BookEntries.config.providers)) }
    ensures legal_books { IfOk result (λ all. All (λ book. IsLegalBook N.BookEntries.config book.entries) all.books.items) }
    ensures legal_accounts { IfOk result (λ all. All (λ account. IsLegalAccount N.BookEntries.config account.entries) all.accounts.items) }
{
    let (_, locks) = house.into_parts();
    gather_locks(alloc, locks, passes)
}
