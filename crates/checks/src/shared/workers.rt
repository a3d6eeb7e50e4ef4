//! Lines that workers answer, a pass each.

use super::ending::Ending;
use super::performing::Next;
use crate::check_fault::CheckFault;
use command_line::Fault;
use platform_workers::{WorkerEnd, run_platforms};
use request_lines::{Device, Sink, Source};
use shared_house::{Gate, House, Names, NoGate, Pass};
use std::alloc::{AllocError, Global};
use std::sync::Wait;
use std::thread::Threads;
use std::{io, mem};

// Adds the passes of workers that were done, up to the first fault.
fn add_passes<N: Names>(
    workers: Vec<(Pass<N>, WorkerEnd)>,
    passes: &mut Vec<Pass<N>>,
) -> Result<(), CheckFault<'static>> {
    for (pass, end) in workers {
        match end {
            WorkerEnd::Done(_) => passes.push(pass)?,
            WorkerEnd::Failed(fault) => return Err(CheckFault::from(fault)),
        }
    }
    Ok(())
}

/// Answers the lines of each pair by a worker with the pass in the same place.
pub fn answer_pairs<
    N: Names + Send + Sync,
    R: Threads + Wait + Sync,
    S: Source + Drop + Send,
    W: Sink + Drop + Send,
    G: Gate + Sync,
>(
    alloc: Global,
    threads: &R,
    house: &House<N>,
    passes: &mut Vec<Pass<N>>,
    pairs: Vec<(S, W)>,
    gate: &G,
) -> Result<(), CheckFault<'static>>
where
    N::BookEntries: Send + Sync,
    N::BookAmounts: Send + Sync,
    N::AccountEntries: Send + Sync,
    N::AccountAmounts: Send + Sync,
    N::Events: Send + Sync,
{
    if passes.len() != pairs.len() {
        return Err(CheckFault::NotAsExpected);
    }
    let given = mem::replace(passes, Vec::new(alloc));
    match run_platforms(threads, alloc, house, given, pairs, gate) {
        Ok(workers) => add_passes(workers, passes),
        Err(_) => Err(CheckFault::from(Fault::NoMemory)),
    }
}

// Each text, with a writer that passes all answers over.
fn pairs_of<'a>(
    alloc: Global,
    texts: &'a [Vec<u8>],
) -> Result<Vec<(Device<&'a [u8]>, Device<io::Sink>)>, AllocError> {
    let mut pairs = Vec::new(alloc);
    for text in texts {
        pairs.push((Device::new(text.as_slice()), Device::new(io::sink())))?;
    }
    Ok(pairs)
}

/// Answers the texts by a worker each. There are to be so many events then.
pub fn answer_texts<N: Names + Send + Sync, R: Threads + Wait + Sync>(
    alloc: Global,
    threads: &R,
    house: &House<N>,
    passes: &mut Vec<Pass<N>>,
    texts: &[Vec<u8>],
    events: usize,
) -> Result<Next<'static>, CheckFault<'static>>
where
    N::BookEntries: Send + Sync,
    N::BookAmounts: Send + Sync,
    N::AccountEntries: Send + Sync,
    N::AccountAmounts: Send + Sync,
    N::Events: Send + Sync,
{
    let pairs = pairs_of(alloc, texts)?;
    answer_pairs(alloc, threads, house, passes, pairs, &NoGate)?;
    Ok(Next::Finish(Ending::Texts { events }))
}
