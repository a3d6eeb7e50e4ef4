//! The event that contradicts a line.

ghost use Rattle.std.specs.Prelude.{◌≡◌};
ghost use Rattle.line_causes.specs.Event.{event_of, event_of_request};

use crate::line_cause::LineCause;
use house_causes::RequestCause;

fn event_of_request(cause: &RequestCause) -> Option<usize>
    ensures { result ≡ event_of_request cause.now }
{
    match cause {
        RequestCause::NotAdmitted(_) => None,
        RequestCause::ByHouse(cause) => cause.event,
    }
}

/// Returns the number, from 0, of the event that contradicts the line.
pub fn event_in(cause: &LineCause) -> Option<usize>
    ensures { result ≡ event_of cause.now }
{
    match cause {
        LineCause::Request(cause) => event_of_request(cause),
        LineCause::ComesOutOtherwise { event, .. } => Some(*event),
        LineCause::NotUtf8 { .. }
        | LineCause::NotJson { .. }
        | LineCause::Member { .. }
        | LineCause::IdOfAnotherLine { .. }
        | LineCause::Unknown => None,
    }
}
