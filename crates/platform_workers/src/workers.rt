//! One worker for each pass.

ghost use Rattle.std.specs.Prelude.{◌≡◌, ℕ, ◌<◌, IfErr, IfOk, slice_index_or, vec_len};
ghost use Rattle.platform_workers.specs.Inner.Jobs.{JobRan};
ghost use Rattle.platform_workers.specs.Workers.{EachRan, WorkerRan, end_of, streams_of};

use super::jobs::{Job, NotBegun, WorkerEnd, ended, jobs_of, to_take};
use super::platform::Platform;
use request_lines::{Count, LineRoom, ScriptFault, Sink, Source, run_lines};
use shared_house::{Configured, Gate, House, Names, Part, Pass};
use std::alloc::Global;
use std::sync::Wait;
use std::thread;
use std::thread::Threads;

/// Answers the lines of the reader in turn, until it ends, with the pass.
fn run_platform<N: Names, I: Source, O: Sink, R: Wait, G: Gate>(
    rt: &R,
    alloc: Global,
    house: &House<N>,
    gate: &G,
    pass: &mut Pass<N>,
    reader: &mut I,
    writer: &mut O,
) -> Result<Count, ScriptFault>
    ensures { WorkerRan (streams_of I.reading O.writing) N.BookEntries.config pass.old (reader.old, writer.old) pass.new (end_of result) }
{
    let mut room = LineRoom::new(alloc);
    let mut platform = Platform {
        rt,
        house,
        gate,
        pass,
        room: &mut room,
    };
    run_lines(alloc, reader, writer, &mut platform)
}

/// Runs the worker of a job, and drops its reader and its writer when it ends: a process at the other end of a pipe then does not wait
/// for the other workers.
fn work<N: Names, I: Source + Drop, O: Sink + Drop, R: Wait, G: Gate>(
    rt: &R,
    alloc: Global,
    house: &House<N>,
    gate: &G,
    job: &mut Job<N, Option<(I, O)>>,
)
    ensures { JobRan (streams_of I.reading O.writing) N.BookEntries.config job.old.pass job.old.given job.new.pass job.new.given job.new.end }
{
    let Some((mut reader, mut writer)) = job.given.take() else {
        return;
    };
    let pass = &mut job.pass;
    let ran = run_platform(rt, alloc, house, gate, pass, &mut reader, &mut writer);
    job.end = match ran {
        Ok(count) => WorkerEnd::Done(count),
        Err(fault) => WorkerEnd::Failed(fault),
    };
}

/// Runs the worker of each job, in a thread of its own where one can be made.
fn run_jobs<
    N: Names + Send + Sync,
    I: Source + Drop + Send,
    O: Sink + Drop + Send,
    R: Threads + Wait + Sync,
    G: Gate + Sync,
>(rt: &R, alloc: Global, house: &House<N>, gate: &G, jobs: &mut Vec<Job<N, Option<(I, O)>>>)
where
    N::BookEntries: Send + Sync,
    N::BookAmounts: Send + Sync,
    N::AccountEntries: Send + Sync,
    N::AccountAmounts: Send + Sync,
    N::Events: Send + Sync,
    ensures len { vec_len jobs.new ≡ vec_len jobs.old }
    ensures each { (place : ℕ) (job : _) → place < vec_len jobs.old →
        JobRan (streams_of I.reading O.writing) N.BookEntries.config (slice_index_or jobs.old.items place job).pass (slice_index_or jobs.old.items place job).given
        (slice_index_or jobs.new.items place job).pass (slice_index_or jobs.new.items place job).given (slice_index_or jobs.new.items place job).end }
{
    let threads = jobs.len();
    if threads > 0 {
        thread::for_each_mut(
            rt,
            jobs,
            threads,
            &|_, job| { work(rt, alloc, house, gate, job) },
        );
    }
}

/// Answers the lines of each pair's reader onto its writer, with the pass in the same place: each pair in a thread of its own, or
/// one after another where no thread can be made. A worker that ends drops its pair at once. The passes come back in their order,
/// each with how its worker ended.
///
/// # Errors
///
/// The passes and the pairs as they were given, if an allocation fails: no worker begins then.
pub fn run_platforms<
    N: Names + Send + Sync,
    I: Source + Drop + Send,
    O: Sink + Drop + Send,
    R: Threads + Wait + Sync,
    G: Gate + Sync,
>(
    rt: &R,
    alloc: Global,
    house: &House<N>,
    passes: Vec<Pass<N>>,
    pairs: Vec<(I, O)>,
    gate: &G,
) -> Result<Vec<(Pass<N>, WorkerEnd)>, NotBegun<N, I, O>>
where
    N::BookEntries: Send + Sync,
    N::BookAmounts: Send + Sync,
    N::AccountEntries: Send + Sync,
    N::AccountAmounts: Send + Sync,
    N::Events: Send + Sync,
    requires len { vec_len passes ≡ vec_len pairs }
    ensures each { IfOk result (λ ended. EachRan (streams_of I.reading O.writing) N.BookEntries.config passes.items pairs.items ended.items) }
    ensures len { IfOk result (λ ended. vec_len ended ≡ vec_len passes) }
    ensures passes_kept { IfErr result (λ unchanged. unchanged.passes.items ≡ passes.items) }
    ensures pairs_kept { IfErr result (λ unchanged. unchanged.pairs.items ≡ pairs.items) }
{
    let count = passes.len();
    let Ok(jobs) = Vec::with_capacity(alloc, count) else {
        return Err(NotBegun { passes, pairs });
    };
    let Ok(places) = Vec::with_capacity(alloc, count) else {
        return Err(NotBegun { passes, pairs });
    };
    let Ok(taken) = Vec::with_capacity(alloc, count) else {
        return Err(NotBegun { passes, pairs });
    };
    let mut jobs = jobs_of(jobs, passes, to_take(taken, pairs));
    run_jobs(rt, alloc, house, gate, &mut jobs);
    Ok(ended(places, jobs))
}
