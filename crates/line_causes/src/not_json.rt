//! The column at which a line stops being text or JSON.

ghost use Rattle.std.specs.Prelude.{◌≡◌, ◌≤◌, length, IfOk};
ghost use Rattle.std.specs.Str.{is_utf8};
ghost use Rattle.line_causes.specs.NotJson.{IsNotJson, begins_character, column_after};

use crate::line_cause::LineCause;
use command_line::find_json_stop;
use std::alloc::{AllocError, Global};
use std::str;

fn begins_character(byte: &u8) -> bool
    ensures { result ≡ begins_character byte.now }
{
    *byte < 0x80 || 0xc0 <= *byte
}

// Returns the column, from 1, after `count` bytes of a line.
fn column_after(line: &[u8], count: usize) -> usize
    requires { count ≤ length line.now }
    ensures { result ≡ column_after line.now count }
{
    let before = &line[..count];
    before.iter().filter(|byte| begins_character(byte)).count() + 1
}

/// Returns where a line that is no JSON stops being text, or the first character that no JSON text can have there.
///
/// # Errors
///
/// `AllocError` if an allocation fails.
pub fn cause_of_text(alloc: Global, line: &[u8]) -> Result<LineCause, AllocError>
    ensures { IfOk result (λ cause. IsNotJson (is_utf8 line.now) line.now cause) }
{
    match str::from_utf8(line) {
        Ok(_) => {
            let count = find_json_stop(alloc, line)?;
            let column = column_after(line, count);
            Ok(LineCause::NotJson { column })
        }
        Err(error) => {
            let column = column_after(line, error.valid_up_to());
            Ok(LineCause::NotUtf8 { column })
        }
    }
}
