//! A text as a CDR.

ghost use Rattle.std.specs.Prelude.{◌≡◌, IfOk, IfErr, Ok, Err, false};
ghost use Rattle.input_reports.specs.CdrText.{cdr_of, is_no_memory};

use crate::rating_fault::{RatingFault, refused};
use ocpi_json::fields::FieldFault;
use ocpi_json::objects::FromNodeIn;
use ocpi_json::{ReadFault, Room};
use ocpi_types::{Cdr, Refusal};
use std::alloc::Global;

/// The CDR that a text of JSON is: `Syntax` where it is no JSON, `Field` for the first member that is missing, of a wrong kind or
/// out of bounds, `NoMemory` where a growth was refused.
#[tactic(auto, unfolding(crate::specs::CdrText::cdr_of))]
pub fn read_cdr(alloc: Global, room: &mut Room, text: &[u8]) -> Result<Cdr, RatingFault>
    ensures cdr { IfOk result (λ cdr. cdr_of text.now ≡ Ok cdr) }
    ensures fault { IfErr result (λ fault. is_no_memory fault ≡ false → cdr_of text.now ≡ Err fault) }
{
    let read = match room.read(text) {
        Ok(read) => read,
        Err(ReadFault::Syntax) => return Err(refused(Refusal::Syntax)),
        Err(ReadFault::NoMemory) => return Err(RatingFault::NoMemory),
    };
    match Cdr::from_node_in(alloc, &read.value()) {
        Ok(cdr) => Ok(cdr),
        Err(FieldFault::Field(fault)) => Err(refused(Refusal::Field {
            name: fault.member.name(),
        })),
        Err(FieldFault::NoMemory) => Err(RatingFault::NoMemory),
    }
}
