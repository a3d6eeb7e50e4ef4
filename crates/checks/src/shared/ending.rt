//! The end of a house that has done its work.

use super::{growths, missing_pass};
use crate::check_fault::CheckFault;
use crate::growths::{Outcome, Trial};
use shared_house::{Ended, FinishFault};

/// What is wanted of the end of a house, or told of it.
#[derive(Clone, Copy)]
pub enum Ending<'a> {
    /// A house that is ended cannot be ended again, so where all else is done once more, want of memory is no fault.
    Lines {
        is_again: bool,
    },

    /// How the house ends is printed.
    MissingPass,

    /// The call is to have been paused.
    Paused {
        was_paused: bool,
    },

    /// How the last line was done is printed. The events are to be those that are expected then.
    Growths {
        trial: &'a Trial<'a>,
        outcome: Outcome,
    },

    /// There are to be so many events.
    Texts {
        events: usize,
    },
}

fn end_lines(
    ended: &Result<Ended, FinishFault>,
    is_again: bool,
) -> Result<(), CheckFault<'static>> {
    match ended {
        Ok(_) => Ok(()),
        Err(FinishFault::NoMemory) if is_again => Ok(()),
        Err(fault) => Err(CheckFault::from(*fault)),
    }
}

fn end_paused(
    ended: &Result<Ended, FinishFault>,
    was_paused: bool,
) -> Result<(), CheckFault<'static>> {
    match ended {
        Ok(_) if was_paused => Ok(()),
        Ok(_) => Err(CheckFault::NotPaused),
        Err(fault) => Err(CheckFault::from(*fault)),
    }
}

fn end_texts(ended: &Result<Ended, FinishFault>, events: usize) -> Result<(), CheckFault<'static>> {
    match ended {
        Ok(ended) if ended.events.len() == events => Ok(()),
        Ok(_) => Err(CheckFault::NotAsExpected),
        Err(fault) => Err(CheckFault::from(*fault)),
    }
}

impl Ending<'_> {
    /// Tells how the house ended, and gives the fault where it is not as wanted.
    pub fn tell(
        self,
        rt: &HostRuntime,
        ended: &Result<Ended, FinishFault>,
    ) -> Result<(), CheckFault<'static>> {
        match self {
            Ending::Lines { is_again } => end_lines(ended, is_again),
            Ending::MissingPass => missing_pass::tell(rt, ended),
            Ending::Paused { was_paused } => end_paused(ended, was_paused),
            Ending::Growths { trial, outcome } => growths::tell_ended(rt, trial, outcome, ended),
            Ending::Texts { events } => end_texts(ended, events),
        }
    }
}
