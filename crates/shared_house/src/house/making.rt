//! A new house and its passes.

ghost use Rattle.std.specs.Prelude.{◌≡◌, ◌≤◌, [], length, map, vec_capacity, vec_len, All, IfOk};
ghost use Rattle.std.specs.List.{range_with_len};
ghost use Rattle.shared_house.specs.Names.{IsLedgerOf};

use super::blanks::Blanks;
use super::locks::{House, Locks};
use crate::laws::house_laws;
use crate::ledgers::{Configured, Names, Part, Rest, Shares};
use crate::locked::{LockedAccount, LockedBook, LockedOrder};
use crate::pass::Pass;
use ocpi_types::Config;
use operator_book::Book;
use period_order::Order;
use provider_account::Account;
use std::alloc::{AllocError, Global};
use std::sync::Mutex;
use std::sync::ledger::Share;

// An empty book under a lock for each operator, in a list that has places for them.
fn lock_books<N: Names>(
    mut books: Vec<Mutex<LockedBook<N>>>,
    count: usize,
    entries: &mut Share<N::BookEntries>,
    amounts: &mut Share<N::BookAmounts>,
) -> Vec<Mutex<LockedBook<N>>>
    requires empty { vec_len books ≡ 0 }
    requires places { count ≤ vec_capacity books }
    requires parts { (entries.old.parts ≡ count) × (amounts.old.parts ≡ count) }
    requires nothing { (entries.old.amount ≡ 0) × (amounts.old.amount ≡ 0) }
    ensures len { vec_len result ≡ count }
    ensures none { (entries.new.parts ≡ 0) × (amounts.new.parts ≡ 0) }
    ensures nothing { (entries.new.amount ≡ 0) × (amounts.new.amount ≡ 0) }
{
    house_laws();
    let alloc = *books.allocator();
    for _number in 0..count {
        let shares = Shares {
            entries: entries.split_off(1, 0),
            amounts: amounts.split_off(1, 0),
        };
        let book = Book::new(alloc);
        books.push_reserved(Mutex::new(LockedBook { book, shares }));
    }
    books
}

// An empty account under a lock for each provider, in the same way.
fn lock_accounts<N: Names>(
    mut accounts: Vec<Mutex<LockedAccount<N>>>,
    count: usize,
    entries: &mut Share<N::AccountEntries>,
    amounts: &mut Share<N::AccountAmounts>,
) -> Vec<Mutex<LockedAccount<N>>>
    requires empty { vec_len accounts ≡ 0 }
    requires places { count ≤ vec_capacity accounts }
    requires parts { (entries.old.parts ≡ count) × (amounts.old.parts ≡ count) }
    requires nothing { (entries.old.amount ≡ 0) × (amounts.old.amount ≡ 0) }
    ensures len { vec_len result ≡ count }
    ensures none { (entries.new.parts ≡ 0) × (amounts.new.parts ≡ 0) }
    ensures nothing { (entries.new.amount ≡ 0) × (amounts.new.amount ≡ 0) }
{
    house_laws();
    let alloc = *accounts.allocator();
    for _number in 0..count {
        let shares = Shares {
            entries: entries.split_off(1, 0),
            amounts: amounts.split_off(1, 0),
        };
        let account = Account::new(alloc);
        accounts.push_reserved(Mutex::new(LockedAccount { account, shares }));
    }
    accounts
}

// Passes without calls, in a list that has places for them.
fn make_passes<N: Names>(
    mut passes: Vec<Pass<N>>,
    count: usize,
    events: &mut Share<N::Events>,
) -> Vec<Pass<N>>
    requires empty { passes.items ≡ [] }
    requires places { count ≤ vec_capacity passes }
    requires part { events.old.parts ≡ count }
    requires nothing { events.old.amount ≡ 0 }
    ensures len { vec_len result ≡ count }
    ensures fresh { All (λ pass. pass.calls ≡ []) result.items }
    ensures numbers { map (λ pass. pass.number) result.items ≡ range_with_len 0 count }
    ensures none { (events.new.parts ≡ 0) × (events.new.amount ≡ 0) }
{
    let alloc = *passes.allocator();
    for number in 0..count {
        passes.push_reserved(Pass {
            number,
            calls: Vec::new(alloc),
            events: events.split_off(1, 0),
        });
    }
    passes
}

// Memory for the locks of a house and for its passes.
#[derive(Drop)]
struct Places<N: Names> {
    books: Vec<Mutex<LockedBook<N>>>,
    accounts: Vec<Mutex<LockedAccount<N>>>,
    passes: Vec<Pass<N>>,
}

fn make_places<N: Names>(
    alloc: Global,
    config: &Config,
    passes: usize,
) -> Result<Places<N>, AllocError>
    ensures empty { IfOk result (λ places. (vec_len places.books ≡ 0) × (vec_len places.accounts ≡ 0) × (places.passes.items ≡ [])) }
    ensures room { IfOk result (λ places. (length config.now.operators ≤ vec_capacity places.books) × (length config.now.providers ≤ vec_capacity places.accounts) × (passes ≤ vec_capacity places.passes)) }
{
    let operators = config.operators.as_slice().len();
    let providers = config.providers.as_slice().len();
    Ok(Places {
        books: Vec::with_capacity(alloc, operators)?,
        accounts: Vec::with_capacity(alloc, providers)?,
        passes: Vec::with_capacity(alloc, passes)?,
    })
}

// The house of these locks.
fn joined<N: Names>(
    config: Config,
    passes: usize,
    books: Vec<Mutex<LockedBook<N>>>,
    accounts: Vec<Mutex<LockedAccount<N>>>,
    order: LockedOrder<N>,
    rest: Rest<N>,
) -> House<N>
    requires config { config ≡ N.BookEntries.config }
    requires books { (vec_len books ≡ length config.operators) × (vec_len books ≡ N.BookEntries.all) × (vec_len books ≡ N.BookAmounts.all) }
    requires accounts { (vec_len accounts ≡ length config.providers) × (vec_len accounts ≡ N.AccountEntries.all) × (vec_len accounts ≡ N.AccountAmounts.all) }
    requires passes { passes ≡ N.Events.all }
{
    let locks = Locks {
        books,
        accounts,
        order: Mutex::new(order),
        rest: Mutex::new(rest),
    };
    House {
        config,
        locks,
        passes,
    }
}

// The house in its places, which takes no more memory.
fn open<N: Names>(
    config: Config,
    passes: usize,
    blanks: Blanks,
    places: Places<N>,
) -> (House<N>, Vec<Pass<N>>)
    requires config { config ≡ N.BookEntries.config }
    requires book_entries { IsLedgerOf blanks.book_entries N.BookEntries.name N.BookEntries.parts N.BookEntries.all (length config.operators) }
    requires book_amounts { IsLedgerOf blanks.book_amounts N.BookAmounts.name N.BookAmounts.parts N.BookAmounts.all (length config.operators) }
    requires account_entries { IsLedgerOf blanks.account_entries N.AccountEntries.name N.AccountEntries.parts N.AccountEntries.all (length config.providers) }
    requires account_amounts { IsLedgerOf blanks.account_amounts N.AccountAmounts.name N.AccountAmounts.parts N.AccountAmounts.all (length config.providers) }
    requires events { IsLedgerOf blanks.events N.Events.name N.Events.parts N.Events.all passes }
    requires empty { (vec_len places.books ≡ 0) × (vec_len places.accounts ≡ 0) × (places.passes.items ≡ []) }
    requires room { (length config.operators ≤ vec_capacity places.books) × (length config.providers ≤ vec_capacity places.accounts) × (passes ≤ vec_capacity places.passes) }
    ensures len { vec_len result.1 ≡ passes }
    ensures fresh { All (λ pass. pass.calls ≡ []) result.1.items }
    ensures numbers { map (λ pass. pass.number) result.1.items ≡ range_with_len 0 passes }
{
    let Blanks {
        book_entries,
        book_amounts,
        account_entries,
        account_amounts,
        events,
    } = blanks;
    let Places {
        books,
        accounts,
        passes: made,
    } = places;
    let (all_book_entries, mut book_entries) = book_entries.open::<N::BookEntries>();
    let (all_book_amounts, mut book_amounts) = book_amounts.open::<N::BookAmounts>();
    let (all_account_entries, mut account_entries) = account_entries.open::<N::AccountEntries>();
    let (all_account_amounts, mut account_amounts) = account_amounts.open::<N::AccountAmounts>();
    let (all_events, mut events) = events.open::<N::Events>();
    let operators = config.operators.as_slice().len();
    let providers = config.providers.as_slice().len();
    let order = LockedOrder {
        order: Order::new(*books.allocator()),
        book_entries: all_book_entries,
        book_amounts: all_book_amounts,
        account_entries: all_account_entries,
        account_amounts: all_account_amounts,
        events: all_events,
    };
    let books = lock_books::<N>(books, operators, &mut book_entries, &mut book_amounts);
    let accounts = lock_accounts::<N>(
        accounts,
        providers,
        &mut account_entries,
        &mut account_amounts,
    );
    let made = make_passes::<N>(made, passes, &mut events);
    let rest = Rest {
        book_entries,
        book_amounts,
        account_entries,
        account_amounts,
        events,
    };
    let house = joined(config, passes, books, accounts, order, rest);
    (house, made)
}

impl<N: Names> House<N> {
    /// An empty house, and so many passes without calls, numbered from 0.
    ///
    /// The ledgers are new ones, of which the names tell the parts; one of the names tells the configuration too.
    ///
    /// # Errors
    ///
    /// `AllocError` where memory is refused.
    pub fn new(
        alloc: Global,
        config: Config,
        passes: usize,
        blanks: Blanks,
    ) -> Result<(House<N>, Vec<Pass<N>>), AllocError>
        requires config { config ≡ N.BookEntries.config }
        requires book_entries { IsLedgerOf blanks.book_entries N.BookEntries.name N.BookEntries.parts N.BookEntries.all (length config.operators) }
        requires book_amounts { IsLedgerOf blanks.book_amounts N.BookAmounts.name N.BookAmounts.parts N.BookAmounts.all (length config.operators) }
        requires account_entries { IsLedgerOf blanks.account_entries N.AccountEntries.name N.AccountEntries.parts N.AccountEntries.all (length config.providers) }
        requires account_amounts { IsLedgerOf blanks.account_amounts N.AccountAmounts.name N.AccountAmounts.parts N.AccountAmounts.all (length config.providers) }
        requires events { IsLedgerOf blanks.events N.Events.name N.Events.parts N.Events.all passes }
        ensures len { IfOk result (λ made. vec_len made.1 ≡ passes) }
        ensures fresh { IfOk result (λ made. All (λ pass. pass.calls ≡ []) made.1.items) }
        ensures numbers { IfOk result (λ made. map (λ pass. pass.number) made.1.items ≡ range_with_len 0 passes) }
    {
        let places = make_places::<N>(alloc, &config, passes)?;
        Ok(open(config, passes, blanks, places))
    }
}
