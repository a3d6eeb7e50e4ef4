//! Replies that every house gives.

ghost use Rattle.std.specs.Prelude.{◌≡◌, Some, None};
ghost use Rattle.plain_house.specs.Laws.{adds_event, is_of_event};
ghost use Rattle.plain_house.specs.Replies.{is_no_memory, stamped};

use super::answer::{Answer, Refused, Replied};
use ocpi_types::Refusal;

/// The refusal of a house that is refused memory: without a point, since nothing was decided.
pub fn out_of_memory() -> Refused
    ensures { result ≡ record { at = None; refusal = Refusal.NoMemory } }
{
    Refused {
        at: None,
        refusal: Refusal::NoMemory,
    }
}

/// Whether the reply is want of memory.
pub fn is_out_of_memory(reply: &Result<Replied, Refused>) -> bool
    ensures { result ≡ is_no_memory reply.now }
{
    match reply {
        Ok(_) => false,
        Err(refused) => match refused.refusal {
            Refusal::NoMemory => true,
            _ => false,
        },
    }
}

fn is_of_event(answer: &Answer) -> bool
    ensures { result ≡ is_of_event answer.now }
{
    match answer {
        Answer::Stored
        | Answer::Allowed { .. }
        | Answer::Released { .. }
        | Answer::Accepted { .. }
        | Answer::Closed { .. }
        | Answer::Settled { .. } => true,
        Answer::Unchanged
        | Answer::Blocked
        | Answer::NoCredit(_)
        | Answer::Repeated { .. }
        | Answer::Exposure { .. }
        | Answer::Found { .. }
        | Answer::Statement { .. } => false,
    }
}

/// Whether the reply tells of an event that was added.
pub fn adds_event(reply: &Result<Replied, Refused>) -> bool
    ensures { result ≡ adds_event reply.now }
{
    match reply {
        Ok(replied) => is_of_event(&replied.answer),
        Err(_) => false,
    }
}

/// The reply with its point, the number of events before it.
pub fn stamped(point: u64, reply: Result<Answer, Refusal>) -> Result<Replied, Refused>
    ensures { result ≡ stamped point reply }
{
    match reply {
        Ok(answer) => Ok(Replied { at: point, answer }),
        Err(refusal) => Err(Refused {
            at: Some(point),
            refusal,
        }),
    }
}
