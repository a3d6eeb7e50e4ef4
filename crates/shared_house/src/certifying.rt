//! The check that an order, books, accounts and calls are of one history.

ghost use Rattle.std.specs.Prelude.{All, ◌≡◌, ℕ, List, Err, map, IfOk};
ghost use Rattle.cdr_checks.specs.Admission.{IsAdmitted};
ghost use Rattle.period_order.specs.Resolved.{entries_of_accounts, entries_of_books};
ghost use Rattle.period_order.specs.Resolves.{FailsAt, Resolves};
ghost use Rattle.period_order.specs.declared.resolved.ResolveFault.TheVariants as unresolved;
ghost use Rattle.shared_house.specs.Points.{AreAllAdmitted};
ghost use Rattle.shared_house.specs.Certified.{IsCertified, IsTornFirst};
ghost use Rattle.shared_house.specs.declared.call.Call.{Call};
ghost use Rattle.shared_house.specs.Inner.Turns.{AreTurns, plain_turn};
ghost use Rattle.shared_house.specs.declared.certifying.CertifyFault.TheVariants as fault;

use crate::call::Call;
use ocpi_types::Config;
use operator_book::Book;
use period_order::{OrderEntry, ResolveFault, resolve, resolving_is_unique, resolving_is_whole};
use plain_house::Event;
use provider_account::Account;
use std::alloc::{AllocError, Global};
use std::thread;
use std::thread::Threads;
use thiserror::Error;

mod laws;
mod replay;
mod stretches;
mod tables;
mod turn;
mod turns;

pub use laws::{
    certified_is_unique, certified_is_whole, histories_keep_promises, passes_see_their_events,
};
use replay::first_break;
use turn::Turn;
use turns::turns_in_order;

/// Why there is no history.
#[derive(Clone, Copy, Debug, PartialEq, Eq, Error)]
pub enum CertifyFault {
    /// The least number at which an entry of the order names no event, or the history breaks.
    #[error("torn at {entry}")]
    Torn { entry: u64 },
    #[error("no memory")]
    NoMemory,
}

impl From<AllocError> for CertifyFault {
    ghost use Rattle.std.specs.Prelude.{◌≡◌};
    ghost use Rattle.shared_house.specs.declared.certifying.CertifyFault.TheVariants.{NoMemory};

    ghost from_gives = { λ _ e. e ≡ NoMemory };

    fn from(_error: AllocError) -> CertifyFault {
        CertifyFault::NoMemory
    }
}

// The first number that is torn, where the order fails at this entry.
fn first_torn<R: Threads + Sync>(
    rt: &R,
    alloc: Global,
    config: &Config,
    order: &[OrderEntry],
    books: &[Book],
    accounts: &[Account],
    turns: &[Turn],
    entry: usize,
) -> Result<u64, AllocError>
    requires admitted { All (λ turn. IsAdmitted config.now turn.call.now.command) turns.now }
    requires fails { FailsAt (entries_of_books books.now) (entries_of_accounts accounts.now) order.now entry }
    ensures { IfOk result (λ number. (passes : List (List Call)) → AreTurns passes (map plain_turn turns.now) →
        IsTornFirst config.now (entries_of_books books.now) (entries_of_accounts accounts.now) order.now passes number) }
{
    resolving_is_unique();
    resolving_is_whole();
    let events = match resolve(alloc, &order[..entry], books, accounts) {
        Ok(events) => events,
        Err(ResolveFault::NoMemory) => return Err(AllocError),
        Err(ResolveFault::Torn { .. }) => unreachable!(),
    };
    match first_break(rt, alloc, config, books, accounts, events.as_slice(), turns)? {
        Some(number) if number < entry as u64 => Ok(number),
        _ => Ok(entry as u64),
    }
}

// The events that the order names and the calls of all passes in their order, found at once.
fn events_and_turns<'a, R: Threads>(
    rt: &R,
    alloc: Global,
    order: &[OrderEntry],
    books: &[Book],
    accounts: &[Account],
    passes: &'a [Vec<Call>],
) -> (
    Result<Vec<Event>, ResolveFault>,
    Result<Vec<Turn<'a>>, AllocError>,
)
    ensures ok { IfOk result.0 (λ events. Resolves (entries_of_books books.now) (entries_of_accounts accounts.now) order.now events.items) }
    ensures torn { (number : ℕ) → result.0 ≡ Err (unresolved.Torn number) →
        FailsAt (entries_of_books books.now) (entries_of_accounts accounts.now) order.now number }
    ensures turns { IfOk result.1 (λ turns. AreTurns (map (λ calls. calls.items) passes.now) (map plain_turn turns.items)) }
{
    let events = || -> Result<Vec<Event>, ResolveFault>
        ensures ok { IfOk result (λ events. Resolves (entries_of_books books.entry.now) (entries_of_accounts accounts.entry.now) order.entry.now events.items) }
        ensures torn { (number : ℕ) → result ≡ Err (unresolved.Torn number) →
            FailsAt (entries_of_books books.entry.now) (entries_of_accounts accounts.entry.now) order.entry.now number }
    { resolve(alloc, order, books, accounts) };
    let turns = || -> Result<Vec<Turn<'_>>, AllocError>
        ensures { IfOk result (λ turns. AreTurns (map (λ calls. calls.items) passes.entry.now) (map plain_turn turns.items)) }
    { turns_in_order(alloc, passes) };
    thread::join(rt, events, turns)
}

/// The events that the order names in books and accounts, where they and the calls of all passes are one history.
///
/// `Torn` with the least number at which an entry of the order names no event, or a call or an event of that number breaks the
/// history. The calls are done once more on entry books of their own, in the order of their points: stretches of them at once, each in
/// a thread of its own where one can be made, and all in turn where that finds no history.
pub fn certify<R: Threads + Sync>(
    rt: &R,
    alloc: Global,
    config: &Config,
    order: &[OrderEntry],
    books: &[Book],
    accounts: &[Account],
    passes: &[Vec<Call>],
) -> Result<Vec<Event>, CertifyFault>
    requires { AreAllAdmitted config.now (map (λ calls. calls.items) passes.now) }
    ensures ok { IfOk result (λ events. IsCertified config.now (entries_of_books books.now) (entries_of_accounts accounts.now) order.now
        (map (λ calls. calls.items) passes.now) events.items) }
    ensures torn { (entry : ℕ) → result ≡ Err (fault.Torn entry) → IsTornFirst config.now (entries_of_books books.now)
        (entries_of_accounts accounts.now) order.now (map (λ calls. calls.items) passes.now) entry }
{
    resolving_is_unique();
    let (events, turns) = events_and_turns(rt, alloc, order, books, accounts, passes);
    let turns = turns?;
    let turns = turns.as_slice();
    match events {
        Ok(events) => {
            match first_break(rt, alloc, config, books, accounts, events.as_slice(), turns)? {
                None => Ok(events),
                Some(entry) => Err(CertifyFault::Torn { entry }),
            }
        }
        Err(ResolveFault::NoMemory) => Err(CertifyFault::NoMemory),
        Err(ResolveFault::Torn { entry }) => {
            let entry = first_torn(rt, alloc, config, order, books, accounts, turns, entry)?;
            Err(CertifyFault::Torn { entry })
        }
    }
}
