//! The lines that are told of growths.

use super::trial::{Outcome, Trial};
use crate::check_fault::CheckFault;
use command_line::Fault;
use plain_house::{Refused, Replied, is_out_of_memory};
use std::io;
use std::io::Write;

/// Writes which line and which kind of house it is. The command is to be done next.
pub fn announce(rt: &HostRuntime, trial: &Trial<'_>, kind: &str) -> io::Result<()> {
    print!(rt; "{} {kind}", trial.number())?;
    rt.stdout().write_all(b": ")
}

/// Writes whether there was memory for the command, which comes next behind the announcement.
pub fn tell_memory(rt: &HostRuntime, was_there: bool) -> io::Result<()> {
    let text = if was_there { "done" } else { "no memory" };
    rt.stdout().write_all(text.as_bytes())
}

/// Writes whether there was memory for the reply, and gives the reply back where that could be written.
pub fn told(rt: &HostRuntime, reply: Result<Replied, Refused>) -> Option<Result<Replied, Refused>> {
    match tell_memory(rt, !is_out_of_memory(&reply)) {
        Ok(()) => Some(reply),
        Err(_) => None,
    }
}

/// Ends the line.
pub fn tell(rt: &HostRuntime, outcome: Outcome) -> Result<(), CheckFault<'static>> {
    let text = match outcome {
        Outcome::Done => " as expected",
        Outcome::Unchanged => ", nothing changed",
        Outcome::DoneAgain => ", then done as expected",
        Outcome::UnchangedAndDone => ", nothing changed, then done as expected",
        Outcome::Otherwise => ", not as expected",
    };
    match println!(rt; "{text}") {
        Ok(()) => Ok(()),
        Err(_) => Err(CheckFault::from(Fault::CannotWrite)),
    }
}
