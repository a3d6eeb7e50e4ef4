//! The columns of a refused line, as texts.

ghost use Rattle.std.specs.Prelude.{◌≡◌, IfOk, string_bytes};
ghost use Rattle.line_causes.specs.Columns.{column_texts, columns_of, event_text};

use crate::against::against_in;
use crate::event::event_in;
use crate::found::found_in;
use crate::line_cause::LineCause;
use crate::line_place::place_in;
use crate::words::words_of;
use std::alloc::{AllocError, Global};

/// The columns of a refused line, as texts; empty if a column has no value.
#[derive(Drop)]
pub struct ColumnTexts {
    /// Where the line is wrong.
    pub place: String,
    /// The cause in words.
    pub cause: String,
    /// The value of the line.
    pub found: String,
    /// The value that it is compared with.
    pub against: String,
    /// The number, from 0, of the event that contradicts the line.
    pub event: String,
}

fn event_text(alloc: Global, event: Option<usize>) -> Result<String, AllocError>
    ensures { IfOk result (λ text. string_bytes text ≡ event_text event) }
{
    match event {
        Some(event) => event.to_string(alloc),
        None => Ok(String::new(alloc)),
    }
}

/// Returns the columns of a line that is refused for this cause.
///
/// # Errors
///
/// `AllocError` if an allocation fails.
pub fn columns(alloc: Global, cause: &LineCause) -> Result<ColumnTexts, AllocError>
    ensures { IfOk result (λ texts. column_texts texts ≡ columns_of cause.now) }
{
    let place = place_in(cause).to_string(alloc)?;
    let found = found_in(cause).to_string(alloc)?;
    let against = against_in(cause).to_string(alloc)?;
    let event = event_text(alloc, event_in(cause))?;
    let cause = String::from_str(alloc, words_of(cause))?;
    Ok(ColumnTexts {
        place,
        cause,
        found,
        against,
        event,
    })
}
