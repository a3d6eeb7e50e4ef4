//! The house of a run.

ghost use Rattle.std.specs.Prelude.{◌≡◌, ◌≤◌, List, [], All, IfErr, IfOk, MatchResult, length, map, vec_capacity, vec_len};
ghost use Rattle.platform_workers.specs.Workers.{streams_of};
ghost use Rattle.shared_house.specs.declared.call.Call.{Call};
ghost use Rattle.shared_house.specs.Finished.{IsFinished};
ghost use Rattle.shared_house.specs.Names.{IsLedgerOf};
ghost use Rattle.clear_cli.specs.HouseRun.{HaveWorked, IsUnfinished};

use ocpi_types::Config;
use plain_house::Event;
use platform_workers::{NotBegun, WorkerEnd, run_platforms};
use request_lines::{Sink, Source};
use shared_house::{Blanks, Configured, FinishFault, House, Names, NoGate, Part, Pass};
use std::alloc::{AllocError, Global};
use std::marker::Brand;
use std::mem;
use std::sync::Wait;
use std::thread::Threads;

/// How the workers of a house ended, and the events of the house, where it finished.
#[derive(Drop)]
pub struct HouseRun {
    pub ends: Vec<WorkerEnd>,
    pub finished: Result<Vec<Event>, FinishFault>,
}

// Lists that have places for the passes and the ends of workers.
#[derive(Drop)]
struct Ended<N: Names> {
    passes: Vec<Pass<N>>,
    ends: Vec<WorkerEnd>,
}

fn with_places<N: Names>(alloc: Global, count: usize) -> Result<Ended<N>, AllocError>
    ensures empty { IfOk result (λ ended. (ended.passes.items ≡ []) × (ended.ends.items ≡ [])) }
    ensures places { IfOk result (λ ended. (count ≤ vec_capacity ended.passes) × (count ≤ vec_capacity ended.ends)) }
{
    Ok(Ended {
        passes: Vec::with_capacity(alloc, count)?,
        ends: Vec::with_capacity(alloc, count)?,
    })
}

// Puts each pass and each end into its list.
fn split<N: Names>(places: Ended<N>, workers: Vec<(Pass<N>, WorkerEnd)>) -> Ended<N>
    requires empty { (places.passes.items ≡ []) × (places.ends.items ≡ []) }
    requires places { (vec_len workers ≤ vec_capacity places.passes) × (vec_len workers ≤ vec_capacity places.ends) }
    ensures passes { result.passes.items ≡ map (λ worker. worker.0) workers.items }
    ensures len { (vec_len result.passes ≡ vec_len workers) × (vec_len result.ends ≡ vec_len workers) }
    ensures ends { result.ends.items ≡ map (λ worker. worker.1) workers.items }
{
    let Ended {
        mut passes,
        mut ends,
    } = places;
    for (pass, end) in workers {
        passes.push_reserved(pass);
        ends.push_reserved(end);
    }
    Ended { passes, ends }
}

// The events of a house, where it finishes with the passes.
fn finish<N: Names, R: Threads + Sync>(
    rt: &R,
    alloc: Global,
    house: House<N>,
    passes: Vec<Pass<N>>,
) -> Result<Vec<Event>, FinishFault>
    requires book_parts { (N.BookEntries.all ≡ N.BookEntries.parts) × (N.BookAmounts.all ≡ N.BookAmounts.parts) }
    requires account_parts { (N.AccountEntries.all ≡ N.AccountEntries.parts) × (N.AccountAmounts.all ≡ N.AccountAmounts.parts) }
    requires pass_parts { N.Events.all ≡ N.Events.parts }
    requires passes { vec_len passes ≡ N.Events.all }
    ensures { MatchResult result (λ events. IsFinished N.BookEntries.config (map (λ pass. pass.calls) passes.items) events.items)
        (λ fault. IsUnfinished N.BookEntries.config (map (λ pass. pass.calls) passes.items) fault) }
{
    match house.finish(rt, alloc, passes) {
        Ok(ended) => {
            // The program ends after this, and the system takes the memory back at once.
            mem::forget(ended.calls);
            Ok(ended.events)
        }
        Err(fault) => Err(fault),
    }
}

// Answers each pair's lines with the pass of a house in its place. If an allocation fails before that, the passes and the pairs come
// back as they were given.
fn run_workers<
    N: Names + Send + Sync,
    I: Source + Drop + Send,
    V: Sink + Drop + Send,
    R: Threads + Wait + Sync,
>(
    rt: &R,
    alloc: Global,
    house: &House<N>,
    passes: Vec<Pass<N>>,
    pairs: Vec<(I, V)>,
) -> Result<Ended<N>, NotBegun<N, I, V>>
where
    N::BookEntries: Send + Sync,
    N::BookAmounts: Send + Sync,
    N::AccountEntries: Send + Sync,
    N::AccountAmounts: Send + Sync,
    N::Events: Send + Sync,
    requires len { vec_len passes ≡ vec_len pairs }
    requires fresh { All (λ pass. pass.calls ≡ []) passes.items }
    ensures worked { IfOk result (λ ended. HaveWorked (streams_of I.reading V.writing) N.BookEntries.config pairs.items ended.ends.items (map (λ pass. pass.calls) ended.passes.items)) }
    ensures len { IfOk result (λ ended. (vec_len ended.passes ≡ vec_len passes) × (vec_len ended.ends ≡ vec_len pairs)) }
    ensures passes_kept { IfErr result (λ unchanged. unchanged.passes.items ≡ passes.items) }
    ensures pairs_kept { IfErr result (λ unchanged. unchanged.pairs.items ≡ pairs.items) }
{
    let Ok(places) = with_places(alloc, passes.len()) else {
        return Err(NotBegun { passes, pairs });
    };
    match run_platforms(rt, alloc, house, passes, pairs, &NoGate) {
        Ok(workers) => Ok(split(places, workers)),
        Err(unchanged) => Err(unchanged),
    }
}

// The same by a new house, which ends then. The pairs come back as they were given if an allocation fails before a line is answered.
fn work<
    N: Names + Send + Sync,
    I: Source + Drop + Send,
    V: Sink + Drop + Send,
    R: Threads + Wait + Sync,
>(
    rt: &R,
    alloc: Global,
    house: House<N>,
    passes: Vec<Pass<N>>,
    pairs: Vec<(I, V)>,
) -> Result<HouseRun, Vec<(I, V)>>
where
    N::BookEntries: Send + Sync,
    N::BookAmounts: Send + Sync,
    N::AccountEntries: Send + Sync,
    N::AccountAmounts: Send + Sync,
    N::Events: Send + Sync,
    requires book_parts { (N.BookEntries.all ≡ N.BookEntries.parts) × (N.BookAmounts.all ≡ N.BookAmounts.parts) }
    requires account_parts { (N.AccountEntries.all ≡ N.AccountEntries.parts) × (N.AccountAmounts.all ≡ N.AccountAmounts.parts) }
    requires pass_parts { N.Events.all ≡ N.Events.parts }
    requires passes { (vec_len passes ≡ N.Events.all) × (vec_len passes ≡ vec_len pairs) }
    requires fresh { All (λ pass. pass.calls ≡ []) passes.items }
    ensures worked { IfOk result (λ run. (calls : List (List Call)) × HaveWorked (streams_of I.reading V.writing) N.BookEntries.config pairs.items run.ends.items calls
        × MatchResult run.finished (λ events. IsFinished N.BookEntries.config calls events.items) (λ fault. IsUnfinished N.BookEntries.config calls fault)) }
    ensures len { IfOk result (λ run. vec_len run.ends ≡ vec_len pairs) }
    ensures kept { IfErr result (λ unchanged. unchanged.items ≡ pairs.items) }
{
    let Ended { passes, ends } = match run_workers(rt, alloc, &house, passes, pairs) {
        Ok(ended) => ended,
        Err(NotBegun { pairs, .. }) => return Err(pairs),
    };
    let finished = finish(rt, alloc, house, passes);
    Ok(HouseRun { ends, finished })
}

// The same from the first line on, under the names of the ledgers, one of which stands for the configuration too.
fn work_under<
    B: Configured + Send + Sync,
    X: Part + Send + Sync,
    A: Part + Send + Sync,
    Y: Part + Send + Sync,
    E: Part + Send + Sync,
    I: Source + Drop + Send,
    V: Sink + Drop + Send,
    R: Threads + Wait + Sync,
>(
    rt: &R,
    alloc: Global,
    config: Config,
    blanks: Blanks,
    pairs: Vec<(I, V)>,
) -> Result<HouseRun, Vec<(I, V)>>
    requires config { config ≡ B.config }
    requires book_entries { IsLedgerOf blanks.book_entries B.name B.parts B.all (length config.operators) }
    requires book_amounts { IsLedgerOf blanks.book_amounts X.name X.parts X.all (length config.operators) }
    requires account_entries { IsLedgerOf blanks.account_entries A.name A.parts A.all (length config.providers) }
    requires account_amounts { IsLedgerOf blanks.account_amounts Y.name Y.parts Y.all (length config.providers) }
    requires events { IsLedgerOf blanks.events E.name E.parts E.all (vec_len pairs) }
    ensures worked { IfOk result (λ run. (calls : List (List Call)) × HaveWorked (streams_of I.reading V.writing) config pairs.items run.ends.items calls
        × MatchResult run.finished (λ events. IsFinished config calls events.items) (λ fault. IsUnfinished config calls fault)) }
    ensures len { IfOk result (λ run. vec_len run.ends ≡ vec_len pairs) }
    ensures kept { IfErr result (λ unchanged. unchanged.items ≡ pairs.items) }
{
    let made = House::<(B, X, A, Y, E)>::new(alloc, config, pairs.len(), blanks);
    let Ok((house, passes)) = made else {
        return Err(pairs);
    };
    work(rt, alloc, house, passes, pairs)
}

/// Answers the lines of each pair's reader onto its answer file, each pair with a pass of a new house of this configuration, and
/// ends the house. The pairs are answered in threads of their own, or one after another where no thread can be made.
///
/// # Errors
///
/// The pairs as they were given, if an allocation fails before a line is answered. If one fails later, `finished` or the ends of
/// the workers say so.
pub fn run_house<I: Source + Drop + Send, V: Sink + Drop + Send, R: Threads + Wait + Sync>(
    rt: &R,
    alloc: Global,
    config: Config,
    pairs: Vec<(I, V)>,
) -> Result<HouseRun, Vec<(I, V)>>
    ensures worked { IfOk result (λ run. (calls : List (List Call)) × HaveWorked (streams_of I.reading V.writing) config pairs.items run.ends.items calls
        × MatchResult run.finished (λ events. IsFinished config calls events.items) (λ fault. IsUnfinished config calls fault)) }
    ensures len { IfOk result (λ run. vec_len run.ends ≡ vec_len pairs) }
    ensures kept { IfErr result (λ unchanged. unchanged.items ≡ pairs.items) }
{
    let blanks = Blanks::new(&config, pairs.len());
    work_under::<Brand, Brand, Brand, Brand, Brand, I, V, R>(rt, alloc, config, blanks, pairs)
}
