//! A developer's program: it shows what no contract says. Its words say what:
//!
//! - `plain CONFIG`, `books CONFIG` and `shared CONFIG` answer the lines of standard input, by the house of one list of events, by
//!   that of books and accounts, or by one pass of the house that threads share, whose calls are certified in the end.
//!   `plain-again CONFIG`, `books-again CONFIG` and `shared-again CONFIG` do once more what memory was refused for, and so show
//!   whether a house that memory was refused to is as it was.
//! - `growths CONFIG` does the command of each line of standard input by every kind of house, behind those before it, and tells how a
//!   house goes on to which memory was refused for that command: `tests/suites/refused_commands` refuses it each request in turn.
//! - `changes CONFIG` answers them in the third way, and tells what is certified of the order, the books, the accounts and the
//!   calls, as they are and with one change each.
//! - `paused CONFIG WAYPOINT FILE FILE FILE FILE` answers the lines of four files, those of the second paused at the waypoint, as
//!   `BookHeld(0)`, while those of the third are answered; `often CONFIG TIMES EVENTS FILE..` answers the files' lines by a worker
//!   each, so many times by a new house, which is to have so many events. All calls are certified.
//! - `copies` copies what standard input has, and `readings` reads each of its lines in two ways.
//! - `json` tells row by row whether `ocpi_json` reads and keeps texts as expected.
//! - `errors` prints the text of each error that the libraries make public, and for a refusal whether it is the proved one.
//!
//! Without words it does a bit of everything. A fault is told on standard error, with status 2 for words of another form
//! and else with status 1.
#![tactic(auto)]

mod check_fault;
mod copies;
mod error_texts;
mod everything;
mod files;
mod growths;
mod houses;
mod json_rows;
mod readings;
mod shared;
mod words;

use check_fault::{CheckFault, tell};
use command_line::{Fault, given_words};
use std::process::ExitCode;
use std::sync::Wait;
use std::thread::Threads;
use words::{Job, job_of};

// The words alone say whether anything is done once more, so they are always asked for again.
fn words_again(rt: &HostRuntime) -> Result<Vec<String>, Fault<'static>> {
    match given_words(rt) {
        Err(Fault::NoMemory) => given_words(rt),
        words => words,
    }
}

fn perform<'a>(
    rt: &HostRuntime,
    threads: &(impl Threads + Wait + Sync),
    words: &'a [String],
) -> Result<(), CheckFault<'a>> {
    match job_of(words)? {
        Job::Everything => everything::perform(rt, threads),
        Job::Answer(choice) => houses::answer_lines(rt, threads, choice, rt.stdin()),
        Job::Growths { config } => growths::try_commands(rt, threads, config, rt.stdin()),
        Job::Changes { config } => shared::tell_changes(rt, threads, config, rt.stdin()),
        Job::Paused {
            config,
            waypoint,
            files,
        } => shared::pause(rt, threads, config, waypoint, files),
        Job::Often {
            config,
            times,
            events,
            files,
        } => shared::answer_often(rt, threads, config, times, events, files),
        Job::Copies => copies::copy_input(rt, rt.stdin()),
        Job::Readings => readings::compare_lines(rt, rt.stdin()),
        Job::Json => json_rows::tell_rows(rt),
        Job::Errors => error_texts::tell_rows(rt),
    }
}

fn told(rt: &HostRuntime, fault: &CheckFault<'_>) -> ExitCode {
    let _ = tell(rt, fault);
    ExitCode::from(fault.status())
}

fn main(rt: HostRuntime) -> ExitCode {
    let words = match words_again(&rt) {
        Ok(words) => words,
        Err(fault) => return told(&rt, &CheckFault::from(fault)),
    };
    match perform(&rt, &rt, words.as_slice()) {
        Ok(()) => ExitCode::SUCCESS,
        Err(fault) => told(&rt, &fault),
    }
}
