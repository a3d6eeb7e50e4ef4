//! Why a line of a stream is refused.

ghost use Rattle.std.specs.Prelude.{◌≡◌, IfOk, option_copied};
ghost use Rattle.cdr_checks.specs.Asking.{is_a_hub};
ghost use Rattle.line_causes.specs.StreamCauses.{IsCauseOfAsked, IsCauseOfStreamLine, IsUsedId, by_hub, done_cause};

use crate::line_cause::LineCause;
use crate::line_causes::request_line_cause;
use crate::members::cause_of_member;
use crate::not_json::cause_of_text;
use crate::short_text::short_text;
use cdr_checks::is_a_hub;
use command_line::text_of_found;
use house_causes::RequestCause;
use known_events::KnownEvents;
use line_streams::{Asked, AskedLine, Change, RequestId, StreamReply, read_asked_line};
use ocpi_json::ci_text::CiText;
use ocpi_json::fields::FieldFault;
use ocpi_json::name::Name;
use ocpi_json::{Node, ReadFault};
use ocpi_types::Config;
use request_lines::LineRoom;
use std::alloc::{AllocError, Global};

// Whether a hub asks for the change.
fn by_hub(config: &Config, change: &Change) -> LineCause
    ensures { result ≡ by_hub (is_a_hub config.now change.now.platform) }
{
    match is_a_hub(config, &change.platform) {
        Ok(()) => LineCause::Unknown,
        Err(cause) => LineCause::Request(RequestCause::NotAdmitted(cause)),
    }
}

// The cause of the reply to a request or a change.
fn done_cause(config: &Config, events: &KnownEvents, asked: Asked, reply: &StreamReply) -> LineCause
    ensures { result ≡ done_cause config.now events.now asked reply.now }
{
    match (asked, reply) {
        (Asked::Request(request), StreamReply::House(reply)) => {
            request_line_cause(config, events, request, reply)
        }
        (Asked::Change(change), StreamReply::House(_)) => by_hub(config, &change),
        (Asked::Change(_), StreamReply::Otherwise { event, kind, .. }) => {
            LineCause::ComesOutOtherwise {
                event: *event as usize,
                kind: short_text(kind),
            }
        }
        _ => LineCause::Unknown,
    }
}

// The request id was given to another line.
fn used_id(alloc: Global, line: &Node, id: Option<RequestId>) -> Result<LineCause, AllocError>
    ensures { IfOk result (λ cause. IsUsedId id cause) }
{
    let Some(id) = id else {
        return Ok(LineCause::Unknown);
    };
    if let Some(id) = CiText::new(id.as_str()) {
        return Ok(LineCause::IdOfAnotherLine { id });
    }
    let written = text_of_found(alloc, line.get(Name::RequestId.key()).as_ref())?;
    Ok(LineCause::IdOfAnotherLine {
        id: short_text(written.as_str()),
    })
}

// The cause of the reply to what a line asks for; without a reply its request id was given to another line.
fn cause_of_asked(
    alloc: Global,
    config: &Config,
    events: &KnownEvents,
    line: &Node,
    asks: AskedLine,
    reply: Option<&StreamReply>,
) -> Result<LineCause, AllocError>
    ensures { IfOk result (λ cause. IsCauseOfAsked config.now events.now asks (option_copied reply.entry) cause) }
{
    let AskedLine { id, asked } = asks;
    match reply {
        Some(reply) => Ok(done_cause(config, events, asked, reply)),
        None => used_id(alloc, line, id),
    }
}

/// Why a line of a stream gets this reply to what it asks for, if that is refused: under the configuration in force and after these
/// events. Without a reply its request id was given to another line. The line is read in the room.
///
/// # Errors
///
/// `AllocError` if an allocation fails.
#[tactic(auto, unfolding(crate::specs::StreamCauses::IsCauseOfStreamLine))]
pub fn cause_of_stream_line(
    alloc: Global,
    room: &mut LineRoom,
    config: &Config,
    events: &KnownEvents,
    line: &[u8],
    reply: Option<&StreamReply>,
) -> Result<LineCause, AllocError>
    ensures { IfOk result (λ cause. IsCauseOfStreamLine config.now events.now (option_copied reply.entry) line.now cause) }
{
    let LineRoom { room, tariffs } = room;
    let read = match room.read(line) {
        Ok(read) => read,
        Err(ReadFault::Syntax) => return cause_of_text(alloc, line),
        Err(ReadFault::NoMemory) => return Err(AllocError),
    };
    match read_asked_line(alloc, tariffs, &read.value()) {
        Ok(asks) => cause_of_asked(alloc, config, events, &read.value(), asks, reply),
        Err(FieldFault::Field(fault)) => cause_of_member(alloc, read.value(), &fault, true),
        Err(FieldFault::NoMemory) => Err(AllocError),
    }
}
