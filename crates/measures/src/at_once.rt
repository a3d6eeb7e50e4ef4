//! Calls of several passes at once, each pass on a thread of its own, and how long they and their certificate take.

mod commands;
mod workers;

ghost use Rattle.std.specs.Prelude.{◌≡◌, length};
ghost use Rattle.shared_house.specs.Names.{IsLedgerOf};

use command_line::read_config;
use ocpi_types::Config;
use shared_house::{Blanks, Configured, Ended, FinishFault, House, Names, Part, Pass};
use std::io;
use std::io::ErrorKind;
use std::marker::Brand;
use std::sync::Wait;
use std::thread::Threads;
use std::time::{Duration, Instant};
use workers::{call_count, make_calls};

// How many calls a second that are, on standard error.
fn tell_rate(rt: &HostRuntime, what: &str, calls: usize, took: Duration) -> io::Result<()> {
    let rate = (calls as u128).wrapping_mul(1_000_000) / took.as_micros().max(1);
    eprintln!(rt; "{calls} calls {what}: {rate} a second")
}

// Tells how many calls were certified in that time, and how many events there are.
fn tell_ended(
    rt: &HostRuntime,
    passes: usize,
    calls: usize,
    took: Duration,
    ended: &Result<Ended, FinishFault>,
) -> io::Result<()> {
    let Ok(ended) = ended else {
        return println!(rt; "at once: not certified");
    };
    tell_rate(rt, "certified", calls, took)?;
    let events = ended.events.len();
    println!(rt; "at once: {passes} passes, {calls} calls, {events} events")
}

// Ends the house, and tells how long that takes.
fn finish<N: Names, R: Threads + Sync>(
    rt: &HostRuntime,
    threads: &R,
    house: House<N>,
    passes: Vec<Pass<N>>,
) -> io::Result<()>
    requires book_parts { (N.BookEntries.all ≡ N.BookEntries.parts) × (N.BookAmounts.all ≡ N.BookAmounts.parts) }
    requires account_parts { (N.AccountEntries.all ≡ N.AccountEntries.parts) × (N.AccountAmounts.all ≡ N.AccountAmounts.parts) }
    requires pass_parts { N.Events.all ≡ N.Events.parts }
{
    let count = passes.len();
    let calls = call_count(passes.as_slice());
    let before = Instant::now(rt)?;
    let ended = house.finish(threads, rt.alloc(), passes);
    let took = before.elapsed(rt)?;
    tell_ended(rt, count, calls, took, &ended)
}

// Makes the calls by the house and its passes, and ends it.
fn call<N: Names + Send + Sync, R: Threads + Wait + Sync>(
    rt: &HostRuntime,
    threads: &R,
    house: House<N>,
    mut passes: Vec<Pass<N>>,
    files: &[String],
) -> io::Result<()>
where
    N::BookEntries: Send + Sync,
    N::BookAmounts: Send + Sync,
    N::AccountEntries: Send + Sync,
    N::AccountAmounts: Send + Sync,
    N::Events: Send + Sync,
    requires book_parts { (N.BookEntries.all ≡ N.BookEntries.parts) × (N.BookAmounts.all ≡ N.BookAmounts.parts) }
    requires account_parts { (N.AccountEntries.all ≡ N.AccountEntries.parts) × (N.AccountAmounts.all ≡ N.AccountAmounts.parts) }
    requires pass_parts { N.Events.all ≡ N.Events.parts }
{
    match make_calls(rt, threads, &house, &mut passes, files) {
        Ok(()) => finish(rt, threads, house, passes),
        Err(fault) => Err(fault),
    }
}

// Makes the calls by a house of these ledgers, under their names, one of which stands for the configuration too.
fn call_under<
    B: Configured + Send + Sync,
    X: Part + Send + Sync,
    A: Part + Send + Sync,
    Y: Part + Send + Sync,
    E: Part + Send + Sync,
    R: Threads + Wait + Sync,
>(rt: &HostRuntime, threads: &R, config: Config, blanks: Blanks, files: &[String]) -> io::Result<()>
    requires config { config ≡ B.config }
    requires book_entries { IsLedgerOf blanks.book_entries B.name B.parts B.all (length config.operators) }
    requires book_amounts { IsLedgerOf blanks.book_amounts X.name X.parts X.all (length config.operators) }
    requires account_entries { IsLedgerOf blanks.account_entries A.name A.parts A.all (length config.providers) }
    requires account_amounts { IsLedgerOf blanks.account_amounts Y.name Y.parts Y.all (length config.providers) }
    requires events { IsLedgerOf blanks.events E.name E.parts E.all (length files.now) }
{
    match House::<(B, X, A, Y, E)>::new(rt.alloc(), config, files.len(), blanks) {
        Ok((house, passes)) => call(rt, threads, house, passes, files),
        Err(fault) => Err(io::Error::from(fault)),
    }
}

fn config_in(rt: &HostRuntime, path: &str) -> Option<Config> {
    let file = read_config(rt, path).ok()?;
    Config::read(rt.alloc(), file.as_slice()).ok()
}

/// Makes the calls of the files' lines under the configuration in the file of this path, each file's by a pass and on a thread of its
/// own, and tells how many of them are made in a second, and how many certified.
pub fn work<R: Threads + Wait + Sync>(
    rt: &HostRuntime,
    threads: &R,
    path: &str,
    files: &[String],
) -> io::Result<()> {
    let Some(config) = config_in(rt, path) else {
        return Err(io::Error::from(ErrorKind::InvalidInput));
    };
    let blanks = Blanks::new(&config, files.len());
    call_under::<Brand, Brand, Brand, Brand, Brand, R>(rt, threads, config, blanks, files)
}
