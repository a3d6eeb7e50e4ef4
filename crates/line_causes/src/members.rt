//! Why a member of a line is not read.

ghost use Rattle.std.specs.Prelude.{IfOk};
ghost use Rattle.line_causes.specs.Members.{IsMember};

use crate::line_cause::LineCause;
use crate::short_text::short_text;
use command_line::text_of_found;
use ocpi_json::ci_text::CiText;
use ocpi_json::objects::FromText;
use ocpi_json::{Expected, MemberFault, Node, standing_at};
use ocpi_types::DayOfWeek;
use std::alloc::{AllocError, Global};

// The text of a value, as `text_of_found` writes it.
fn text_of(alloc: Global, value: &Node) -> Result<CiText<64>, AllocError> {
    Ok(short_text(text_of_found(alloc, Some(value))?.as_str()))
}

fn is_day(value: &Node) -> bool {
    match value.as_str() {
        Some(text) => DayOfWeek::from_text(text).is_some(),
        None => false,
    }
}

fn first_no_day<'a>(list: &Node<'a>) -> Option<Node<'a>> {
    let mut items = list.items()?;
    while let Some(item) = items.next() {
        if !is_day(&item) {
            return Some(item);
        }
    }
    None
}

// The text of what is at fault. A day that comes after 65,536 others has the path of its list.
fn text_at_fault(
    alloc: Global,
    value: &Node,
    expected: Expected,
) -> Result<CiText<64>, AllocError> {
    if let Expected::Day = expected {
        if let Some(item) = first_no_day(value) {
            return text_of(alloc, &item);
        }
    }
    text_of(alloc, value)
}

/// Returns why the member at fault is not read, of this line or of one of a stream.
///
/// # Errors
///
/// `AllocError` if an allocation fails.
pub fn cause_of_member(
    alloc: Global,
    line: Node,
    fault: &MemberFault,
    of_stream: bool,
) -> Result<LineCause, AllocError>
    ensures { IfOk result (λ cause. IsMember of_stream line.entry fault.now cause) }
{
    let found = match standing_at(line, fault) {
        Some(value) => Some(text_at_fault(alloc, &value, fault.expected)?),
        None => None,
    };
    Ok(LineCause::Member {
        fault: *fault,
        found,
        of_stream,
    })
}
