//! A new house with its ledgers, and what becomes of it.

ghost use Rattle.std.specs.Prelude.{◌≡◌, length};
ghost use Rattle.shared_house.specs.Names.{IsLedgerOf};

use super::changes;
use super::ending::Ending;
use super::performing::{Next, Work, perform};
use crate::check_fault::CheckFault;
use command_line::Fault;
use ocpi_types::{Config, TryCopy};
use request_lines::{Sink, Source};
use shared_house::{Blanks, Configured, House, Names, Part, Pass, gather};
use std::alloc::AllocError;
use std::marker::Brand;
use std::sync::Wait;
use std::thread::Threads;

// Gathers what the house leaves behind, and tells what is certified of it.
fn gather_and_tell<N: Names, R: Threads + Sync>(
    rt: &HostRuntime,
    threads: &R,
    config: &Config,
    house: House<N>,
    passes: Vec<Pass<N>>,
) -> Result<(), CheckFault<'static>>
    requires config { config.now ≡ N.BookEntries.config }
    requires book_parts { (N.BookEntries.all ≡ N.BookEntries.parts) × (N.BookAmounts.all ≡ N.BookAmounts.parts) }
    requires account_parts { (N.AccountEntries.all ≡ N.AccountEntries.parts) × (N.AccountAmounts.all ≡ N.AccountAmounts.parts) }
    requires pass_parts { N.Events.all ≡ N.Events.parts }
{
    changes::tell(rt, threads, config, gather(rt.alloc(), house, passes))
}

// Ends the house, and tells how.
fn finish_and_tell<N: Names, R: Threads + Sync>(
    rt: &HostRuntime,
    threads: &R,
    ending: Ending<'_>,
    house: House<N>,
    passes: Vec<Pass<N>>,
) -> Result<(), CheckFault<'static>>
    requires book_parts { (N.BookEntries.all ≡ N.BookEntries.parts) × (N.BookAmounts.all ≡ N.BookAmounts.parts) }
    requires account_parts { (N.AccountEntries.all ≡ N.AccountEntries.parts) × (N.AccountAmounts.all ≡ N.AccountAmounts.parts) }
    requires pass_parts { N.Events.all ≡ N.Events.parts }
{
    ending.tell(rt, &house.finish(threads, rt.alloc(), passes))
}

// Does the work by the house and its passes, and tells what becomes of them.
fn perform_by<N: Names + Send + Sync, R: Threads + Wait + Sync, S: Source, W: Sink>(
    rt: &HostRuntime,
    threads: &R,
    config: &Config,
    house: House<N>,
    mut passes: Vec<Pass<N>>,
    work: Work<'_>,
    reader: &mut S,
    writer: &mut W,
) -> Result<(), CheckFault<'static>>
where
    N::BookEntries: Send + Sync,
    N::BookAmounts: Send + Sync,
    N::AccountEntries: Send + Sync,
    N::AccountAmounts: Send + Sync,
    N::Events: Send + Sync,
    requires config { config.now ≡ N.BookEntries.config }
    requires book_parts { (N.BookEntries.all ≡ N.BookEntries.parts) × (N.BookAmounts.all ≡ N.BookAmounts.parts) }
    requires account_parts { (N.AccountEntries.all ≡ N.AccountEntries.parts) × (N.AccountAmounts.all ≡ N.AccountAmounts.parts) }
    requires pass_parts { N.Events.all ≡ N.Events.parts }
{
    match perform(rt, threads, &house, &mut passes, work, reader, writer) {
        Ok(Next::Gather) => gather_and_tell(rt, threads, config, house, passes),
        Ok(Next::Finish(ending)) => finish_and_tell(rt, threads, ending, house, passes),
        Err(fault) => Err(fault),
    }
}

// Does the work by a house of these ledgers, under their names, one of which stands for the configuration too. The house takes its
// configuration in, so there is a copy.
fn perform_under<
    B: Configured + Send + Sync,
    X: Part + Send + Sync,
    A: Part + Send + Sync,
    Y: Part + Send + Sync,
    E: Part + Send + Sync,
    R: Threads + Wait + Sync,
    S: Source,
    W: Sink,
>(
    rt: &HostRuntime,
    threads: &R,
    copy: &Config,
    config: Config,
    passes: usize,
    blanks: Blanks,
    work: Work<'_>,
    reader: &mut S,
    writer: &mut W,
) -> Result<(), CheckFault<'static>>
    requires config { config ≡ B.config }
    requires copy { copy.now ≡ config }
    requires book_entries { IsLedgerOf blanks.book_entries B.name B.parts B.all (length config.operators) }
    requires book_amounts { IsLedgerOf blanks.book_amounts X.name X.parts X.all (length config.operators) }
    requires account_entries { IsLedgerOf blanks.account_entries A.name A.parts A.all (length config.providers) }
    requires account_amounts { IsLedgerOf blanks.account_amounts Y.name Y.parts Y.all (length config.providers) }
    requires events { IsLedgerOf blanks.events E.name E.parts E.all passes }
{
    match House::<(B, X, A, Y, E)>::new(rt.alloc(), config, passes, blanks) {
        Ok((house, passes)) => perform_by(rt, threads, copy, house, passes, work, reader, writer),
        Err(AllocError) => Err(CheckFault::from(Fault::NoMemory)),
    }
}

/// Does the work by a new house under the configuration.
pub fn with_house<R: Threads + Wait + Sync, S: Source, W: Sink>(
    rt: &HostRuntime,
    threads: &R,
    config: Config,
    work: Work<'_>,
    reader: &mut S,
    writer: &mut W,
) -> Result<(), CheckFault<'static>> {
    let copy = config.copy(rt.alloc())?;
    let passes = work.passes();
    let blanks = Blanks::new(&config, passes);
    perform_under::<Brand, Brand, Brand, Brand, Brand, R, S, W>(
        rt, threads, &copy, config, passes, blanks, work, reader, writer,
    )
}
