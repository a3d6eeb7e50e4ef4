//! The records of the table of refused lines.

ghost use Rattle.std.specs.Prelude.{◌≡◌, IfOk, map};
ghost use Rattle.house_reports.specs.explain_lines.Table.{header, record_text, row_of};

use csv::WriterBuilder;
use itoa::Buffer;
use line_causes::{LineCause, columns};
use std::alloc::{AllocError, Global};

// Returns the text of one record.
#[tactic(auto, unfolding(crate::specs::explain_lines::Table::record_text))]
fn record(alloc: Global, fields: &[&[u8]]) -> Result<Vec<u8>, AllocError>
    ensures { IfOk result (λ text. text.items ≡ record_text (map (λ field. field.now) fields.now)) }
{
    let mut table = WriterBuilder::new().from_writer(Vec::new(alloc));
    if table.write_fields(fields).is_err() {
        return Err(AllocError);
    }
    match table.into_inner() {
        Ok(text) => Ok(text),
        Err(_) => Err(AllocError),
    }
}

/// Returns the first record: the names of the columns.
#[tactic(auto, unfolding(crate::specs::explain_lines::Table::header))]
pub fn header(alloc: Global) -> Result<Vec<u8>, AllocError>
    ensures { IfOk result (λ text. text.items ≡ header) }
{
    let fields: [&[u8]; 7] = [
        b"line", b"refusal", b"place", b"cause", b"found", b"against", b"event",
    ];
    record(alloc, &fields)
}

/// Returns the row of the line of this number, from 1, of this refusal and this cause, by RFC 4180, but ended by a newline alone.
pub fn row(
    alloc: Global,
    number: u128,
    refusal: &'static str,
    cause: &LineCause,
) -> Result<Vec<u8>, AllocError>
    ensures { IfOk result (λ text. text.items ≡ row_of number refusal.now cause.now) }
{
    let mut digits = Buffer::new();
    let texts = columns(alloc, cause)?;
    let fields = [
        digits.format(number).as_bytes(),
        refusal.as_bytes(),
        texts.place.as_bytes(),
        texts.cause.as_bytes(),
        texts.found.as_bytes(),
        texts.against.as_bytes(),
        texts.event.as_bytes(),
    ];
    record(alloc, &fields)
}
