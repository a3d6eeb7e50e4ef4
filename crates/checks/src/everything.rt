//! A bit of everything, over standard input and the files of the crate's folder `data`, where the program then has to run.

use crate::check_fault::CheckFault;
use crate::houses::Choice;
use crate::{copies, houses, json_rows, readings, shared};
use command_line::{Fault, open_file};
use std::sync::Wait;
use std::thread::Threads;

fn answer_by_all(
    rt: &HostRuntime,
    threads: &(impl Threads + Wait + Sync),
) -> Result<(), CheckFault<'static>> {
    for house in [
        "plain",
        "books",
        "shared",
        "plain-again",
        "books-again",
        "shared-again",
    ] {
        let choice = Choice::of(house, "config.json").ok_or(Fault::Usage)?;
        houses::answer_lines(rt, threads, choice, open_file(rt, "lines.jsonl")?)?;
    }
    Ok(())
}

/// Does a bit of everything.
pub fn perform(
    rt: &HostRuntime,
    threads: &(impl Threads + Wait + Sync),
) -> Result<(), CheckFault<'static>> {
    json_rows::tell_rows(rt)?;
    copies::copy_input(rt, rt.stdin())?;
    copies::copy_input(rt, open_file(rt, "cdrs.jsonl")?)?;
    readings::compare_lines(rt, open_file(rt, "readings.jsonl")?)?;
    answer_by_all(rt, threads)?;
    shared::tell_changes(rt, threads, "config.json", open_file(rt, "lines.jsonl")?)
}
