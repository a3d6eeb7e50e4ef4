//! A call that is paused at a waypoint while another pass is answered.

mod flags;
mod lines;

use super::ending::Ending;
use super::performing::Next;
use super::workers::answer_pairs;
use crate::check_fault::CheckFault;
use command_line::Fault;
use flags::{Flags, Pausing};
use lines::Lines;
use request_lines::Device;
use shared_house::{House, Names, Pass, Waypoint};
use std::fs;
use std::io::Stdout;
use std::sync::Wait;
use std::sync::atomic::{AtomicBool, Ordering};
use std::thread::Threads;

/// How many files that takes, and passes.
pub const FILES: usize = 4;

fn number_in(text: &str, name: &str) -> Option<usize> {
    text.strip_prefix(name)?
        .strip_prefix("(")?
        .strip_suffix(")")?
        .parse::<usize>()
        .ok()
}

/// The waypoint that a text names, as `BookHeld(0)`.
pub fn waypoint_of(text: &str) -> Option<Waypoint> {
    if let Some(number) = number_in(text, "BookHeld") {
        return Some(Waypoint::BookHeld(number));
    }
    if let Some(number) = number_in(text, "AccountHeld") {
        return Some(Waypoint::AccountHeld(number));
    }
    number_in(text, "Collecting").map(Waypoint::Collecting)
}

// Adds the lines of the file at the path, and where their answers go.
fn add_pair<'f>(
    rt: &HostRuntime,
    path: &str,
    behind: Option<&'f AtomicBool>,
    sets: &'f AtomicBool,
    pairs: &mut Vec<(Lines<'f>, Device<Stdout>)>,
) -> Result<(), CheckFault<'static>> {
    let Ok(file) = fs::open(rt, path) else {
        return Err(CheckFault::NotPaused);
    };
    let lines = Lines {
        file: Device::new(file),
        behind,
        sets,
    };
    Ok(pairs.push((lines, Device::new(rt.stdout())))?)
}

// The lines of four files: those of the second after those of the first, those of the third once the second's call is at its
// waypoint, and those of the fourth after those of the second.
fn pairs_of<'f>(
    rt: &HostRuntime,
    files: &[String],
    flags: &'f Flags,
) -> Result<Vec<(Lines<'f>, Device<Stdout>)>, CheckFault<'static>> {
    let [before, paused, other, behind] = files else {
        return Err(CheckFault::from(Fault::Usage));
    };
    let mut pairs = Vec::new(rt.alloc());
    add_pair(rt, before.as_str(), None, &flags.before, &mut pairs)?;
    add_pair(
        rt,
        paused.as_str(),
        Some(&flags.before),
        &flags.paused,
        &mut pairs,
    )?;
    add_pair(
        rt,
        other.as_str(),
        Some(&flags.at_waypoint),
        &flags.other,
        &mut pairs,
    )?;
    add_pair(
        rt,
        behind.as_str(),
        Some(&flags.paused),
        &flags.behind,
        &mut pairs,
    )?;
    Ok(pairs)
}

// Answers the lines of the files by a pass each, with the second pass's call paused at the waypoint.
fn answer_files<N: Names + Send + Sync, R: Threads + Wait + Sync>(
    rt: &HostRuntime,
    threads: &R,
    house: &House<N>,
    passes: &mut Vec<Pass<N>>,
    waypoint: Waypoint,
    files: &[String],
    flags: &Flags,
) -> Result<(), CheckFault<'static>>
where
    N::BookEntries: Send + Sync,
    N::BookAmounts: Send + Sync,
    N::AccountEntries: Send + Sync,
    N::AccountAmounts: Send + Sync,
    N::Events: Send + Sync,
{
    let gate = Pausing {
        pass: 1,
        waypoint,
        flags,
    };
    let pairs = pairs_of(rt, files, flags)?;
    answer_pairs(rt.alloc(), threads, house, passes, pairs, &gate)
}

/// Answers the lines of the files by a pass each, on standard output. The second pass's call is to be paused at the waypoint.
pub fn answer<N: Names + Send + Sync, R: Threads + Wait + Sync>(
    rt: &HostRuntime,
    threads: &R,
    house: &House<N>,
    passes: &mut Vec<Pass<N>>,
    waypoint: Waypoint,
    files: &[String],
) -> Result<Next<'static>, CheckFault<'static>>
where
    N::BookEntries: Send + Sync,
    N::BookAmounts: Send + Sync,
    N::AccountEntries: Send + Sync,
    N::AccountAmounts: Send + Sync,
    N::Events: Send + Sync,
{
    let flags = Flags::new();
    match answer_files(rt, threads, house, passes, waypoint, files, &flags) {
        Ok(()) => Ok(Next::Finish(Ending::Paused {
            was_paused: flags.was_paused.load(Ordering::SeqCst),
        })),
        Err(fault) => Err(fault),
    }
}
