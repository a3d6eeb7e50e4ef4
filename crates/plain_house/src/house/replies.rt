//! Replies, and the events that go with them.

ghost use Rattle.std.specs.Prelude.{◌≡◌, Some, None};
ghost use Rattle.plain_house.specs.Replies.{Follows};
ghost use Rattle.plain_house.specs.Verdict.{accepts};

use crate::answer::{Answer, Refused, Replied};
use crate::event::Event;
use crate::replies::out_of_memory;
use ocpi_types::Refusal;

/// The refusal of a house that has `at` events.
pub fn refused(at: usize, refusal: Refusal) -> Refused
    ensures { result ≡ record { at = Some at; refusal = refusal } }
{
    Refused {
        at: Some(at as u64),
        refusal,
    }
}

/// The answer of a house that has `at` events.
pub fn replied(at: usize, answer: Answer) -> Replied
    ensures { result ≡ record { at = at; answer = answer } }
{
    Replied {
        at: at as u64,
        answer,
    }
}

/// Adds the event and answers.
pub fn add(events: &mut Vec<Event>, event: Event, answer: Answer) -> Result<Replied, Refused>
    ensures { Follows (accepts answer event) events.old.items result events.new.items }
{
    let at = events.len();
    match events.push(event) {
        Ok(()) => Ok(replied(at, answer)),
        Err(_) => Err(out_of_memory()),
    }
}
