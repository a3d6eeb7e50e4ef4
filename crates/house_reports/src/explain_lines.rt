//! Where and why each refused line fails: a table of comma-separated values.

ghost use Rattle.std.specs.Prelude.{◌≡◌, ◌↔◌, false};

mod added;
mod explainer;
mod row;
mod streamed;
mod table;

use crate::command::Lines;
use command_line::{Fault, Output};
use request_lines::{Device, Source};
use std::cell::Cell;
use streamed::explain_stream;
use table::explain;

// Returns the exit status, by whether a line is refused.
fn status(is_any_refused: bool) -> u8
    ensures { (result ≡ 0) ↔ (is_any_refused ≡ false) }
{
    if is_any_refused { 3 } else { 0 }
}

// Prints the rows of the lines of a reader, and returns whether there is one.
fn print<R: Source>(
    rt: &HostRuntime,
    is_gone: &Cell<bool>,
    lines: Lines<'_>,
    reader: &mut R,
) -> Result<bool, Fault<'static>> {
    match lines {
        Lines::Script { config } => {
            let mut writer = Device::new(Output::new(rt.stdout(), is_gone));
            Ok(explain(rt.alloc(), config, reader, &mut writer)?)
        }
        Lines::Stream { config } => {
            let mut writer = Device::new(Output::new(rt.stdout(), is_gone));
            Ok(explain_stream(rt.alloc(), config, reader, &mut writer)?)
        }
    }
}

/// Prints the rows of the lines of a reader, and returns the exit status.
pub fn perform<R: Source>(
    rt: &HostRuntime,
    is_gone: &Cell<bool>,
    lines: Lines<'_>,
    reader: &mut R,
) -> Result<u8, Fault<'static>> {
    Ok(status(print(rt, is_gone, lines, reader)?))
}
