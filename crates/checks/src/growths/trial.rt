//! A line that is tried, and what is expected of a house at it.

use ocpi_json::same::Same;
use plain_house::{Event, Refused, Replied};

/// A line, those before it, and what the house of one list does at it.
#[derive(Clone, Copy)]
pub struct Trial<'a> {
    pub before: &'a [&'a str],
    pub line: &'a str,
    /// What has happened before the line.
    pub events_before: &'a [Event],
    /// What has happened behind it.
    pub events: &'a [Event],
    pub reply: &'a Result<Replied, Refused>,
}

impl Trial<'_> {
    /// The number of the line, from 1.
    pub fn number(&self) -> usize {
        self.before.len().saturating_add(1)
    }

    /// It is what the house of one list replies.
    pub fn is_expected(&self, reply: &Result<Replied, Refused>) -> bool {
        self.reply.is_same(reply)
    }
}

/// How a house did a command.
#[derive(Clone, Copy, PartialEq, Eq)]
pub enum Outcome {
    /// As expected.
    Done,
    /// It was refused memory, and nothing has changed.
    Unchanged,
    /// It was refused memory, and done as expected once more.
    DoneAgain,
    /// It was refused memory, nothing had changed, and it was done as expected once more.
    UnchangedAndDone,
    Otherwise,
}

impl Outcome {
    /// This outcome, if what it takes is so.
    pub fn only_if(is_so: bool, outcome: Outcome) -> Outcome {
        if is_so { outcome } else { Outcome::Otherwise }
    }
}
