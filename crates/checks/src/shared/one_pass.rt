//! Lines that one pass answers.

use super::caller::Caller;
use crate::check_fault::CheckFault;
use request_lines::{LineRoom, Sink, Source, run_lines};
use shared_house::{House, Names, Pass};
use std::alloc::Global;
use std::sync::Wait;

/// Answers the lines of the reader by the calls of the last of the passes.
pub fn answer<N: Names, R: Wait, S: Source, W: Sink>(
    alloc: Global,
    locks: &R,
    house: &House<N>,
    passes: &mut [Pass<N>],
    is_again: bool,
    reader: &mut S,
    writer: &mut W,
) -> Result<(), CheckFault<'static>> {
    let Some(pass) = passes.last_mut() else {
        return Ok(());
    };
    let mut room = LineRoom::new(alloc);
    let mut caller = Caller {
        locks,
        house,
        pass,
        room: &mut room,
        is_again,
    };
    match run_lines(alloc, reader, writer, &mut caller) {
        Ok(_) => Ok(()),
        Err(fault) => Err(CheckFault::from(fault)),
    }
}
