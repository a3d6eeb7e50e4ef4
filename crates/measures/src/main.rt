//! Does the work that is measured, and writes a checksum of what it found on standard output. The first word is the subject
//! (`tariffs`, `rating`, `lines` or `re_rating`), the second its part, and the third the number of rounds, for `lines` the file, or
//! for `re_rating` the number of records. Of what the words leave out every part makes a few rounds. The times are taken from
//! outside (`bench/run`), but for those of `lines` and `re_rating`, which go to standard error.
//!
//! `at_once CONFIG FILE..` makes the calls of the files' lines, each file by a pass of one house and on a thread of its own, has them
//! certified, and tells on standard error how many of them a second.
#![tactic(auto)]

mod asked;
mod at_once;
mod lines;
mod rating;
mod records;
mod tariffs;

use asked::{Asked, Subject, calls_at_once};
use command_line::given_words;
use ocpi_types::Zone;
use std::io;
use std::process::ExitCode;
use std::sync::Wait;
use std::thread::Threads;

fn work(
    rt: &HostRuntime,
    threads: &(impl Threads + Sync),
    zone: &Zone,
    asked: &Asked<'_>,
) -> io::Result<()> {
    if asked.names(Subject::Tariffs) {
        tariffs::work(rt, zone, asked)?;
    }
    if asked.names(Subject::Rating) {
        rating::work(rt, zone, asked)?;
    }
    if asked.names(Subject::Lines) {
        lines::work(rt, asked)?;
    }
    if asked.names(Subject::ReRating) {
        records::work(rt, threads, zone, asked)?;
    }
    Ok(())
}

fn told(rt: &HostRuntime, why: &str, status: u8) -> ExitCode {
    let _ = eprintln!(rt; "measures: {why}");
    ExitCode::from(status)
}

fn ended(rt: &HostRuntime, done: io::Result<()>) -> ExitCode {
    match done {
        Ok(()) => ExitCode::SUCCESS,
        Err(_) => told(rt, "cannot read, write or take memory", 1),
    }
}

fn measure(rt: &HostRuntime, threads: &(impl Threads + Sync), words: &[String]) -> ExitCode {
    let Some(asked) = Asked::of(words) else {
        return told(
            rt,
            "usage: measures [SUBJECT [PART [NUMBER|FILE]]] or at_once CONFIG FILE..",
            2,
        );
    };
    match Zone::read("CET-1CEST,M3.5.0,M10.5.0/3") {
        Some(zone) => ended(rt, work(rt, threads, &zone, &asked)),
        None => told(rt, "no zone", 1),
    }
}

fn perform(rt: &HostRuntime, threads: &(impl Threads + Wait + Sync), words: &[String]) -> ExitCode {
    match calls_at_once(words) {
        Some((config, files)) => ended(rt, at_once::work(rt, threads, config, files)),
        None => measure(rt, threads, words),
    }
}

fn main(rt: HostRuntime) -> ExitCode {
    match given_words(&rt) {
        Ok(words) => perform(&rt, &rt, words.as_slice().get(1..).unwrap_or(&[])),
        Err(_) => told(&rt, "no words", 1),
    }
}
