//! The command `run`.

ghost use Rattle.std.specs.Prelude.{◌≡◌, ◌↔◌, ◌⊎◌, ◌≤◌, ℕ, [], List, true, IfErr, IfOk, MatchResult, length, map, string_bytes, vec_len};
ghost use denote.Param.Send.{IsSync};
ghost use Rattle.plain_house.specs.Entries.{period_of};
ghost use Rattle.plain_house.specs.Legal.{IsLegal};
ghost use Rattle.shared_house.specs.declared.call.Call.{Call};
ghost use Rattle.shared_house.specs.Finished.{IsFinished};
ghost use Rattle.command_line.specs.Fault.{exit_status, fault_text};
ghost use Rattle.clear_cli.specs.Fault.{AreTold};
ghost use Rattle.clear_cli.specs.Differences.{difference_count};
ghost use Rattle.clear_cli.specs.Folder.{AreLeft, AreWritten, folder_words};
ghost use Rattle.clear_cli.specs.HouseRun.{IsUnfinished};
ghost use Rattle.clear_cli.specs.Inner.Running.{HasNotBegun, HasWorked, RunsUnder};
ghost use Rattle.clear_cli.specs.Opening.{given_file};
ghost use Rattle.clear_cli.specs.Outputs.{outputs};
ghost use Rattle.clear_cli.specs.Run.{Fails, IsDone, IsEnded, IsLeftOpen, IsLineLeft, IsLineWritten, counts_text, run_of, run_words, worker_line, worker_lines, worker_text};

use crate::differences::difference_count;
use crate::fault::finish_fault;
use crate::folder::Folder;
use crate::house_run::{HouseRun, run_house};
use crate::opening::{Named, Opened, open};
use crate::outputs::write_outputs;
use crate::schedule_text::WriteFault;
use crate::script::read_config;
use command_line::{Fault, tell, tell_of_file};
use ocpi_types::{Config, TryCopy};
use plain_house::Event;
use platform_workers::WorkerEnd;
use request_lines::{ScriptFault, Sink, Source, write_all};
use shared_house::FinishFault;
use std::alloc::{AllocError, Global};
use std::sync::Wait;
use std::thread::Threads;
use std::{mem, thread};

/// The exit status of a run, and the pairs of a reader and an answer file that were opened and with which no worker began. They
/// come back, so that the contract of `run` says that they were neither read nor written.
#[derive(Drop)]
pub struct RunEnd<I: Source + Drop, V: Sink + Drop> {
    pub status: u8,
    pub unanswered: Vec<(I, V)>,
}

// Why a worker failed, whose file has this path.
fn worker_fault<'a>(path: &'a str, fault: ScriptFault) -> Fault<'a>
    ensures { fault_text result ≡ worker_text path.now fault }
{
    match fault {
        ScriptFault::Read => Fault::CannotRead { path },
        ScriptFault::Write { .. } => Fault::CannotWrite,
        ScriptFault::NoMemory => Fault::NoMemory,
        ScriptFault::LineTooLong { line } => Fault::LineTooLong { line },
    }
}

// Whether a worker was done. If it failed, that is reported.
fn tell_if_failed<F: Sink>(faults: &mut F, named: &Named, end: WorkerEnd) -> bool
    ensures told { AreTold F.writing faults.old (worker_line named.now end) faults.new }
    ensures done { (result ≡ true) ↔ (worker_line named.now end ≡ []) }
{
    match end {
        WorkerEnd::Done(_) => true,
        WorkerEnd::Failed(fault) => {
            let fault = worker_fault(named.path(), fault);
            tell_of_file(faults, named.number(), &fault);
            false
        }
    }
}

// Whether all workers were done. Those that failed are reported.
fn tell_failed<F: Sink>(faults: &mut F, named: &[Named], ends: &[WorkerEnd]) -> bool
    requires { length named.now ≡ length ends.now }
    ensures told { AreTold F.writing faults.old (worker_lines named.now ends.now) faults.new }
    ensures done { (result ≡ true) ↔ (worker_lines named.now ends.now ≡ []) }
{
    let mut are_done = true;
    for place in 0..named.len() {
        let is_done = tell_if_failed(faults, &named[place], ends[place]);
        are_done = are_done && is_done;
    }
    are_done
}

fn counts_text(
    alloc: Global,
    events: usize,
    periods: u64,
    differences: u128,
) -> Result<String, AllocError>
    ensures { IfOk result (λ text. string_bytes text ≡ counts_text events periods differences) }
{
    format!(in alloc; "events {events} periods {periods} differences {differences}\n")
}

fn write_text<W: Sink>(writer: &mut W, text: &str) -> Result<(), Fault<'static>>
    ensures written { MatchResult result (λ _. IsLineWritten W.writing text.now writer.old writer.new)
        (λ fault. IsLineLeft W.writing text.now writer.old writer.new fault) }
    ensures status { IfErr result (λ fault. exit_status fault ≡ 1) }
{
    match write_all(writer, text.as_bytes()) {
        Ok(()) => Ok(()),
        Err(_) => Err(Fault::CannotWrite),
    }
}

// Rates the CDRs of the events again and, at once, writes the files of the house. What came of each.
fn rate_and_write<R: Threads + Sync, O: Folder>(
    rt: &R,
    alloc: Global,
    config: &Config,
    events: &[Event],
    folder: &mut O,
) -> (Result<u128, AllocError>, Result<u64, WriteFault>)
    requires { IsLegal config.now events.now }
    ensures rated { IfOk result.0 (λ count. count ≡ difference_count config.now events.now) }
    ensures periods { IfOk result.1 (λ periods. periods ≡ period_of events.now) }
    ensures written { MatchResult result.1 (λ _. AreWritten (folder_words O.making O.File.writing) (outputs config.now events.now) folder.old folder.new)
        (λ fault. AreLeft (folder_words O.making O.File.writing) (outputs config.now events.now) folder.old folder.new fault) }
{
    let mut rate = || -> Result<u128, AllocError>
        requires { IsSync R.row }
        ensures { IfOk result (λ count. count ≡ difference_count config.entry.now events.entry.now) }
    { difference_count(rt, alloc, config, events) };
    let mut write = || -> Result<u64, WriteFault>
        requires { IsLegal config.now events.now }
        ensures periods { IfOk result (λ periods. periods ≡ period_of events.entry.now) }
        ensures written { MatchResult result (λ _. AreWritten (folder_words O.making O.File.writing) (outputs config.entry.now events.entry.now) folder.entry.now folder.exit.now)
            (λ fault. AreLeft (folder_words O.making O.File.writing) (outputs config.entry.now events.entry.now) folder.entry.now folder.exit.now fault) }
    { write_outputs(alloc, config, events, folder) };
    thread::join_mut(rt, &mut rate, &mut write)
}

// Writes the files of a house that finished, and the last line.
fn write_end<R: Threads + Sync, O: Folder, W: Sink>(
    rt: &R,
    alloc: Global,
    config: &Config,
    events: &[Event],
    folder: &mut O,
    writer: &mut W,
) -> Result<(), Fault<'static>>
    requires { IsLegal config.now events.now }
    ensures ended { (calls : List (List Call)) → IsFinished config.now calls events.now →
        MatchResult result (λ _. IsEnded (folder_words O.making O.File.writing) W.writing config.now calls folder.old folder.new writer.old writer.new)
        (λ fault. IsLeftOpen (folder_words O.making O.File.writing) W.writing config.now calls folder.old folder.new writer.old writer.new fault) }
    ensures status { IfErr result (λ fault. exit_status fault ≡ 1) }
{
    let (differences, written) = rate_and_write(rt, alloc, config, events, folder);
    let periods = written?;
    let text = counts_text(alloc, events.len(), periods, differences?)?;
    write_text(writer, text.as_str())
}

// Writes the files and the last line, where the house finished.
fn end_house<R: Threads + Sync, O: Folder, W: Sink>(
    rt: &R,
    alloc: Global,
    config: &Config,
    finished: Result<Vec<Event>, FinishFault>,
    folder: &mut O,
    writer: &mut W,
) -> Result<(), Fault<'static>>
    requires { IfOk finished (λ events. IsLegal config.now events.items) }
    ensures ended { (calls : List (List Call)) →
        MatchResult finished (λ events. IsFinished config.now calls events.items) (λ fault. IsUnfinished config.now calls fault) →
        MatchResult result (λ _. IsEnded (folder_words O.making O.File.writing) W.writing config.now calls folder.old folder.new writer.old writer.new)
        (λ fault. IsLeftOpen (folder_words O.making O.File.writing) W.writing config.now calls folder.old folder.new writer.old writer.new fault) }
    ensures status { IfErr result (λ fault. exit_status fault ≡ 1) }
{
    match finished {
        Ok(events) => {
            let ended = write_end(rt, alloc, config, events.as_slice(), folder, writer);
            // The program ends after this, and the system takes the memory back at once.
            mem::forget(events);
            ended
        }
        Err(fault) => Err(finish_fault(fault)),
    }
}

// Answers the files that were opened, tells which workers failed, and ends the house. True where none failed. If an allocation
// fails before a line is answered, the pairs come back as they were opened; none comes back otherwise.
fn run_opened<R: Threads + Wait + Sync, I: Source + Drop + Send, O: Folder, W: Sink, F: Sink>(
    rt: &R,
    alloc: Global,
    config: &Config,
    opened: Opened<I, O::File>,
    folder: &mut O,
    writer: &mut W,
    faults: &mut F,
) -> (Result<bool, Fault<'static>>, Vec<(I, O::File)>)
    requires { vec_len opened.named ≡ vec_len opened.pairs }
    ensures ended { HasNotBegun opened.pairs.items result.1.items folder.old folder.new writer.old writer.new faults.old faults.new result.0
        ⊎ HasWorked (run_words I.reading O.making O.File.writing W.writing) F.writing config.now opened.named.items opened.pairs.items result.1.items folder.old folder.new writer.old writer.new faults.old faults.new result.0 }
    ensures status { IfErr result.0 (λ fault. exit_status fault ≡ 1) }
{
    let Opened { named, pairs } = opened;
    let Ok(copied) = config.copy(alloc) else {
        return (Err(Fault::NoMemory), pairs);
    };
    let HouseRun { ends, finished } = match run_house(rt, alloc, copied, pairs) {
        Ok(run) => run,
        Err(pairs) => return (Err(Fault::NoMemory), pairs),
    };
    let are_done = tell_failed(faults, named.as_slice(), ends.as_slice());
    match end_house(rt, alloc, config, finished, folder, writer) {
        Ok(()) => (Ok(are_done), Vec::new(alloc)),
        Err(fault) => (Err(fault), Vec::new(alloc)),
    }
}

// Whether each of the given files was answered, and no worker failed.
fn is_whole(answered: usize, given: usize, are_done: bool) -> bool
    ensures { (result ≡ true) ↔ ((answered ≡ given) × (are_done ≡ true)) }
{
    answered == given && are_done
}

// The same from the opening on. True if no error was reported.
fn run_under<R: Threads + Wait + Sync, I: Source + Drop + Send, O: Folder, W: Sink, F: Sink>(
    rt: &R,
    alloc: Global,
    config: &Config,
    files: Vec<(String, Option<I>)>,
    folder: &mut O,
    writer: &mut W,
    faults: &mut F,
) -> (Result<bool, Fault<'static>>, Vec<(I, O::File)>)
    ensures ended { RunsUnder (run_words I.reading O.making O.File.writing W.writing) F.writing config.now
        (run_of (map given_file files.items) result.1.items folder.old folder.new writer.old writer.new) faults.old faults.new result.0 }
    ensures status { IfErr result.0 (λ fault. exit_status fault ≡ 1) }
{
    let count = files.len();
    let Ok(opened) = open(alloc, folder, faults, files) else {
        return (Err(Fault::NoMemory), Vec::new(alloc));
    };
    if opened.pairs.is_empty() {
        return (Ok(false), opened.pairs);
    }
    let answered = opened.named.len();
    match run_opened(rt, alloc, config, opened, folder, writer, faults) {
        (Ok(are_done), unanswered) => (Ok(is_whole(answered, count, are_done)), unanswered),
        (Err(fault), unanswered) => (Err(fault), unanswered),
    }
}

/// Answers the lines of the files by one house of the configuration of these bytes, each file by a thread of its own if one can
/// be made, writes the order and the statements, and returns the exit status. Each file is its path and, if it could be opened, its
/// reader. `folder` makes the files that are written, `writer` takes the last line, and `faults` each error in one line.
pub fn run<R: Threads + Wait + Sync, I: Source + Drop + Send, O: Folder, W: Sink, F: Sink>(
    rt: &R,
    alloc: Global,
    config: &[u8],
    files: Vec<(String, Option<I>)>,
    folder: &mut O,
    writer: &mut W,
    faults: &mut F,
) -> RunEnd<I, O::File>
    ensures status { result.status ≤ 1 }
    ensures done { result.status ≡ 0 → IsDone (run_words I.reading O.making O.File.writing W.writing)
        (run_of (map given_file files.items) result.unanswered.items folder.old folder.new writer.old writer.new) config.now }
    ensures silent { result.status ≡ 0 → faults.new ≡ faults.old }
    ensures fault { result.status ≡ 1 → (lines : List (List ℕ)) × Fails (run_words I.reading O.making O.File.writing W.writing)
        (run_of (map given_file files.items) result.unanswered.items folder.old folder.new writer.old writer.new) config.now lines
        × AreTold F.writing faults.old lines faults.new }
{
    let config = match read_config(alloc, config) {
        Ok(config) => config,
        Err(fault) => {
            tell(faults, &fault);
            return RunEnd {
                status: fault.status(),
                unanswered: Vec::new(alloc),
            };
        }
    };
    match run_under(rt, alloc, &config, files, folder, writer, faults) {
        (Ok(true), unanswered) => RunEnd {
            status: 0,
            unanswered,
        },
        (Ok(false), unanswered) => RunEnd {
            status: 1,
            unanswered,
        },
        (Err(fault), unanswered) => {
            tell(faults, &fault);
            RunEnd {
                status: fault.status(),
                unanswered,
            }
        }
    }
}
