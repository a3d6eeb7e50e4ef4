//! The columns of a refused line as one JSON object.

ghost use Rattle.std.specs.Prelude.{◌≡◌, IfOk, string_bytes};
ghost use Rattle.line_causes.specs.Adding.{Adds};
ghost use Rattle.line_causes.specs.JsonText.{column_members, event_member, json_text, text_member};
ghost use Rattle.line_causes.specs.Columns.{column_texts};

use crate::column_texts::{ColumnTexts, columns};
use crate::event::event_in;
use crate::line_cause::LineCause;
use json::Writer;
use std::alloc::{AllocError, Global};

// Adds a member with a text; none if the text is empty.
#[tactic(auto, unfolding(crate::specs::JsonText::text_member))]
fn put_text(out: &mut Writer, called: &str, text: &str) -> Result<(), AllocError>
    ensures { Adds result out.old out.new (text_member called.now text.now) }
{
    if text.is_empty() {
        return Ok(());
    }
    out.key(called)?;
    out.string(text)
}

// Adds the member with the number of an event; none if there is no event.
fn put_event(out: &mut Writer, event: Option<usize>) -> Result<(), AllocError>
    ensures { Adds result out.old out.new (event_member event) }
{
    match event {
        Some(event) => {
            out.key("event")?;
            out.u64(event as u64)
        }
        None => Ok(()),
    }
}

// Adds the members of the columns with a text, except the event.
fn put_columns(out: &mut Writer, texts: &ColumnTexts) -> Result<(), AllocError>
    ensures { Adds result out.old out.new (column_members (column_texts texts.now)) }
{
    put_text(out, "place", texts.place.as_str())?;
    put_text(out, "cause", texts.cause.as_str())?;
    put_text(out, "found", texts.found.as_str())?;
    put_text(out, "against", texts.against.as_str())
}

/// Returns the columns of a line that is refused for this cause as one JSON object without spaces. An empty column has no member:
/// `{"place":"uid","cause":"token that is not valid","found":"012345"}`.
///
/// # Errors
///
/// `AllocError` if an allocation fails.
#[tactic(auto, unfolding(crate::specs::JsonText::json_text))]
pub fn json_of(alloc: Global, cause: &LineCause) -> Result<String, AllocError>
    ensures { IfOk result (λ text. string_bytes text ≡ json_text cause.now) }
{
    let texts = columns(alloc, cause)?;
    let mut out = Writer::new(Vec::new(alloc));
    out.begin_object()?;
    put_columns(&mut out, &texts)?;
    put_event(&mut out, event_in(cause))?;
    out.end_object()?;
    Ok(unsafe { String::from_utf8_unchecked(out.into_inner()) })
}
