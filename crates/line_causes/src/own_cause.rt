//! Why a line is refused before a house is asked: the line and the configuration alone decide it.

ghost use Rattle.std.specs.Prelude.{◌≡◌, IfOk};
ghost use Rattle.line_causes.specs.OwnCauses.{IsOwnCause, own_cause};

use crate::line_cause::LineCause;
use crate::members::cause_of_member;
use crate::not_json::cause_of_text;
use cdr_checks::{admit, is_a_hub};
use house_causes::RequestCause;
use line_streams::{Asked, read_asked_line};
use ocpi_json::ReadFault;
use ocpi_json::fields::FieldFault;
use ocpi_types::Config;
use request_lines::LineRoom;
use std::alloc::{AllocError, Global};

// Why no house is asked.
fn own_cause(config: &Config, asked: Asked) -> Option<LineCause>
    ensures { result ≡ own_cause config.now asked }
{
    let cause = match asked {
        Asked::Request(request) => match admit(config, request) {
            Ok(_command) => return None,
            Err((_request, cause)) => cause,
        },
        Asked::Change(change) => match is_a_hub(config, &change.platform) {
            Ok(()) => return None,
            Err(cause) => cause,
        },
    };
    Some(LineCause::Request(RequestCause::NotAdmitted(cause)))
}

/// Returns why a line of a stream is refused under this configuration before a house is asked. None if a house is asked.
///
/// # Errors
///
/// `AllocError` if an allocation fails.
#[tactic(auto, unfolding(crate::specs::OwnCauses::IsOwnCause))]
pub fn own_cause_of_line(
    alloc: Global,
    room: &mut LineRoom,
    config: &Config,
    line: &[u8],
) -> Result<Option<LineCause>, AllocError>
    ensures { IfOk result (λ cause. IsOwnCause config.now line.now cause) }
{
    let LineRoom { room, tariffs } = room;
    let read = match room.read(line) {
        Ok(read) => read,
        Err(ReadFault::Syntax) => return Ok(Some(cause_of_text(alloc, line)?)),
        Err(ReadFault::NoMemory) => return Err(AllocError),
    };
    match read_asked_line(alloc, tariffs, &read.value()) {
        Ok(asks) => Ok(own_cause(config, asks.asked)),
        Err(FieldFault::Field(fault)) => {
            Ok(Some(cause_of_member(alloc, read.value(), &fault, true)?))
        }
        Err(FieldFault::NoMemory) => Err(AllocError),
    }
}
