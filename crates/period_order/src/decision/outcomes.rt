//! Outcomes that are replies.

ghost use Rattle.std.specs.Prelude.{◌≡◌, None, Some, Ok, Err};
ghost use Rattle.period_order.specs.declared.decided.Outcome.TheVariants as outcome;

use crate::decided::Outcome;
use ocpi_types::Refusal;
use plain_house::{Answer, Event};

/// The reply, and no event.
pub fn replied(reply: Result<Answer, Refusal>) -> Outcome
    ensures { result ≡ outcome.Replied reply None }
{
    Outcome::Replied { reply, event: None }
}

pub fn refused(refusal: Refusal) -> Outcome
    ensures { result ≡ outcome.Replied (Err refusal) None }
{
    replied(Err(refusal))
}

/// The answer, and the event.
pub fn accepted(answer: Answer, event: Event) -> Outcome
    ensures { result ≡ outcome.Replied (Ok answer) (Some event) }
{
    Outcome::Replied {
        reply: Ok(answer),
        event: Some(event),
    }
}
