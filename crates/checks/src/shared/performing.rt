//! What is done by a house and its passes.

use super::ending::Ending;
use super::{growths, missing_pass, one_pass, paused, workers};
use crate::check_fault::CheckFault;
use crate::growths::Trial;
use request_lines::{Sink, Source};
use shared_house::{House, Names, Pass, Waypoint};
use std::sync::Wait;
use std::thread::Threads;

/// What becomes of a house that has done its work.
#[derive(Clone, Copy)]
pub enum Next<'a> {
    /// What it leaves behind is gathered, and it is told what is certified of that, as it is and with one change each.
    Gather,

    /// It ends, and how it does is printed or compared with what is expected.
    Finish(Ending<'a>),
}

/// What is done with a new house.
#[derive(Clone, Copy)]
pub enum Work<'a> {
    /// One pass answers the lines of the reader, and perhaps does once more what memory is refused for.
    Lines {
        is_again: bool,
        next: Next<'a>,
    },

    /// The house loses one of two passes.
    MissingPass,

    /// A call is paused at a waypoint while another pass is answered.
    Paused {
        waypoint: Waypoint,
        files: &'a [String],
    },

    /// A pass does the last line of the trial, and perhaps once more where memory is refused.
    Growths {
        trial: &'a Trial<'a>,
        is_again: bool,
    },

    /// Workers answer the texts, and there are to be so many events.
    Texts {
        texts: &'a [Vec<u8>],
        events: usize,
    },
}

impl Work<'_> {
    /// How many passes the house has.
    pub fn passes(&self) -> usize {
        match self {
            Work::Lines { .. } | Work::Growths { .. } => 1,
            Work::MissingPass => 2,
            Work::Paused { .. } => paused::FILES,
            Work::Texts { texts, .. } => texts.len(),
        }
    }
}

/// Does the work by the house and its passes.
pub fn perform<'a, N: Names + Send + Sync, R: Threads + Wait + Sync, S: Source, W: Sink>(
    rt: &HostRuntime,
    threads: &R,
    house: &House<N>,
    passes: &mut Vec<Pass<N>>,
    work: Work<'a>,
    reader: &mut S,
    writer: &mut W,
) -> Result<Next<'a>, CheckFault<'static>>
where
    N::BookEntries: Send + Sync,
    N::BookAmounts: Send + Sync,
    N::AccountEntries: Send + Sync,
    N::AccountAmounts: Send + Sync,
    N::Events: Send + Sync,
{
    match work {
        Work::Lines { is_again, next } => {
            match one_pass::answer(rt.alloc(), threads, house, passes, is_again, reader, writer) {
                Ok(()) => Ok(next),
                Err(fault) => Err(fault),
            }
        }
        Work::MissingPass => {
            missing_pass::lose_last(passes);
            Ok(Next::Finish(Ending::MissingPass))
        }
        Work::Paused { waypoint, files } => paused::answer(
            rt, threads, house, passes, waypoint, files,
        ),
        Work::Growths { trial, is_again } => {
            let outcome = growths::outcome(rt, threads, house, passes, trial, is_again);
            Ok(Next::Finish(Ending::Growths { trial, outcome }))
        }
        Work::Texts { texts, events } => {
            workers::answer_texts(rt.alloc(), threads, house, passes, texts, events)
        }
    }
}
