//! Passes with their commands, and the calls of all of them, each pass on a thread of its own.

use super::commands::{Admitted, commands_of};
use super::tell_rate;
use shared_house::{House, Names, NoGate, Pass};
use std::alloc::AllocError;
use std::sync::Wait;
use std::thread::Threads;
use std::time::Instant;
use std::{io, mem, thread};

// A pass, and what is to be called with it.
#[derive(Drop)]
struct Worker<N: Names> {
    pass: Pass<N>,
    commands: Vec<Admitted<N>>,
}

impl<N: Names> Worker<N> {
    fn call_all<R: Wait>(&mut self, locks: &R, house: &House<N>) {
        let Worker { pass, commands } = self;
        let none = Vec::new(*commands.allocator());
        for admitted in mem::replace(commands, none) {
            let Admitted { command, of: _ } = admitted;
            mem::drop(house.call(locks, pass, &NoGate, command));
        }
    }
}

// Adds the pass, with the commands of the file at the path.
fn add_worker<N: Names>(
    rt: &HostRuntime,
    house: &House<N>,
    pass: Pass<N>,
    path: &str,
    workers: &mut Vec<Worker<N>>,
) -> io::Result<()> {
    match commands_of(rt, house, path) {
        Ok(commands) => Ok(workers.push(Worker { pass, commands })?),
        Err(fault) => Err(fault),
    }
}

// Adds the passes, each with the commands of the file of its number.
fn add_workers<N: Names>(
    rt: &HostRuntime,
    house: &House<N>,
    passes: Vec<Pass<N>>,
    files: &[String],
    workers: &mut Vec<Worker<N>>,
) -> io::Result<()> {
    for (pass, path) in passes.into_iter().zip(files) {
        add_worker(rt, house, pass, path.as_str(), workers)?;
    }
    Ok(())
}

// Adds the passes of the workers.
fn add_passes<N: Names>(
    workers: Vec<Worker<N>>,
    passes: &mut Vec<Pass<N>>,
) -> Result<(), AllocError> {
    for worker in workers {
        let Worker { pass, .. } = worker;
        passes.push(pass)?;
    }
    Ok(())
}

// How many commands the workers have.
fn command_count<N: Names>(workers: &[Worker<N>]) -> usize {
    let mut count = 0usize;
    for worker in workers {
        count = count.saturating_add(worker.commands.len());
    }
    count
}

// Makes the calls of all workers, each on a thread of its own.
fn call_all<N: Names + Send + Sync, R: Threads + Wait + Sync>(
    rt: &HostRuntime,
    threads: &R,
    house: &House<N>,
    workers: &mut [Worker<N>],
) -> io::Result<()>
where
    N::BookEntries: Send + Sync,
    N::BookAmounts: Send + Sync,
    N::AccountEntries: Send + Sync,
    N::AccountAmounts: Send + Sync,
    N::Events: Send + Sync,
{
    let count = workers.len();
    let calls = command_count(workers);
    let before = Instant::now(rt)?;
    if count > 0 {
        thread::for_each_mut(
            threads,
            workers,
            count,
            &|_, worker| { worker.call_all(threads, house) },
        );
    }
    tell_rate(rt, "made", calls, before.elapsed(rt)?)
}

/// How many calls the passes have made.
pub fn call_count<N: Names>(passes: &[Pass<N>]) -> usize {
    let mut count = 0usize;
    for pass in passes {
        count = count.saturating_add(pass.calls().len());
    }
    count
}

/// Makes the calls of the files' lines, each file's by a pass, and tells how many a second.
pub fn make_calls<N: Names + Send + Sync, R: Threads + Wait + Sync>(
    rt: &HostRuntime,
    threads: &R,
    house: &House<N>,
    passes: &mut Vec<Pass<N>>,
    files: &[String],
) -> io::Result<()>
where
    N::BookEntries: Send + Sync,
    N::BookAmounts: Send + Sync,
    N::AccountEntries: Send + Sync,
    N::AccountAmounts: Send + Sync,
    N::Events: Send + Sync,
{
    let given = mem::replace(passes, Vec::new(rt.alloc()));
    let mut workers = Vec::new(rt.alloc());
    add_workers(rt, house, given, files, &mut workers)?;
    call_all(rt, threads, house, workers.as_mut_slice())?;
    Ok(add_passes(workers, passes)?)
}
