//! A line that was refused.

ghost use Rattle.std.specs.Prelude.{◌≡◌, string_bytes, IfOk};
ghost use Rattle.line_causes.specs.JsonText.{json_text};
ghost use Rattle.line_causes.specs.StreamCauses.{IsCauseOfStreamLine};
ghost use Rattle.line_causes.specs.declared.line_cause.LineCause.{LineCause as Cause};
ghost use Rattle.line_streams.specs.State.{state_of};
ghost use Rattle.clear_embedded.specs.Refusals.{if_refused, if_refusing};

use known_events::KnownEvents;
use line_causes::{cause_of_stream_line, json_of};
use line_streams::{Stream, StreamReply};
use plain_house::{Answer, Replied};
use request_lines::LineRoom;
use std::alloc::{AllocError, Global};

/// A line that was refused, and the reply to what was done for it; none if its request id was given to another line.
#[derive(Drop)]
pub struct RefusedLine {
    pub line: Vec<u8>,
    pub done: Option<StreamReply>,
}

// A copy of an answer that refuses a request.
fn answer_copy(answer: &Answer) -> Option<Answer>
    ensures { result ≡ if_refusing answer.now }
{
    match answer {
        Answer::Blocked => Some(Answer::Blocked),
        Answer::NoCredit(over) => Some(Answer::NoCredit(*over)),
        _ => None,
    }
}

/// A copy of a reply that refuses a line; none of another.
pub fn refusal_copy(reply: &StreamReply) -> Option<StreamReply>
    ensures { result ≡ if_refused reply.now }
{
    match reply {
        StreamReply::House(Ok(replied)) => Some(StreamReply::House(Ok(Replied {
            at: replied.at,
            answer: answer_copy(&replied.answer)?,
        }))),
        StreamReply::House(Err(refused)) => Some(StreamReply::House(Err(*refused))),
        StreamReply::Configured { .. } | StreamReply::Lowered { .. } => None,
        StreamReply::Otherwise { at, event, kind } => Some(StreamReply::Otherwise {
            at: *at,
            event: *event,
            kind,
        }),
    }
}

// The events of a stream, by their keys.
fn known_events(alloc: Global, stream: &Stream) -> Result<KnownEvents, AllocError>
    ensures { IfOk result (λ events. events ≡ (state_of stream.now).house.events) }
{
    let mut known = KnownEvents::new(alloc);
    for event in stream.events(alloc)? {
        known.push(event)?;
    }
    Ok(known)
}

/// Why the last line of a stream was refused, as JSON. It takes time by the number of events.
///
/// # Errors
///
/// `AllocError` if an allocation fails.
pub fn cause_text(
    alloc: Global,
    stream: &Stream,
    refused: &RefusedLine,
) -> Result<String, AllocError>
    ensures { IfOk result (λ text. (cause : Cause)
        × IsCauseOfStreamLine (state_of stream.now).house.config (state_of stream.now).house.events refused.now.done refused.now.line.items cause
        × (string_bytes text ≡ json_text cause)) }
{
    let events = known_events(alloc, stream)?;
    let mut room = LineRoom::new(alloc);
    let cause = cause_of_stream_line(
        alloc,
        &mut room,
        stream.config(),
        &events,
        refused.line.as_slice(),
        refused.done.as_ref(),
    );
    match cause {
        Ok(cause) => json_of(alloc, &cause),
        Err(AllocError) => Err(AllocError),
    }
}
