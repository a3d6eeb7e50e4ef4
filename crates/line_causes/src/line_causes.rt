//! Why a line of a script is refused.

ghost use Rattle.std.specs.Prelude.{◌≡◌, IfOk};
ghost use Rattle.line_causes.specs.LineCauses.{IsCauseOfLine, request_line_cause};

use crate::line_cause::LineCause;
use crate::members::cause_of_member;
use crate::not_json::cause_of_text;
use cdr_checks::Request;
use house_causes::cause_of_request;
use known_events::KnownEvents;
use ocpi_json::ReadFault;
use ocpi_json::fields::FieldFault;
use ocpi_types::Config;
use plain_house::{Refused, Replied};
use request_lines::{LineRoom, read_request};
use std::alloc::{AllocError, Global};

/// Why a request gets this reply.
pub(crate) fn request_line_cause(
    config: &Config,
    events: &KnownEvents,
    request: Request,
    reply: &Result<Replied, Refused>,
) -> LineCause
    ensures { result ≡ request_line_cause config.now events.now request reply.now }
{
    match cause_of_request(config, events, request, reply) {
        Some(cause) => LineCause::Request(cause),
        None => LineCause::Unknown,
    }
}

/// Why a line gets this reply after these events, if the reply is a refusal, BLOCKED or NO_CREDIT. The line is read in the room.
///
/// # Errors
///
/// `AllocError` if an allocation fails.
#[tactic(auto, unfolding(crate::specs::LineCauses::IsCauseOfLine))]
pub fn cause_of_line(
    alloc: Global,
    room: &mut LineRoom,
    config: &Config,
    events: &KnownEvents,
    line: &[u8],
    reply: &Result<Replied, Refused>,
) -> Result<LineCause, AllocError>
    ensures { IfOk result (λ cause. IsCauseOfLine config.now events.now reply.now line.now cause) }
{
    let LineRoom { room, tariffs } = room;
    let read = match room.read(line) {
        Ok(read) => read,
        Err(ReadFault::Syntax) => return cause_of_text(alloc, line),
        Err(ReadFault::NoMemory) => return Err(AllocError),
    };
    match read_request(alloc, tariffs, &read.value()) {
        Ok(request) => Ok(request_line_cause(config, events, request, reply)),
        Err(FieldFault::Field(fault)) => cause_of_member(alloc, read.value(), &fault, false),
        Err(FieldFault::NoMemory) => Err(AllocError),
    }
}
