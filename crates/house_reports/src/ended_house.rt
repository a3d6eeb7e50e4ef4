//! A house of books after the lines of a reader: its events, and how many of the lines were refused.

mod counted;
mod ended;
mod writing;

use crate::command::Lines;
use command_line::Fault;
pub use ended::EndedHouse;
use request_lines::Source;
pub use writing::{tell_refused, write_text};

/// Returns the house after the lines of the reader.
pub fn house_of<R: Source>(
    rt: &HostRuntime,
    lines: Lines<'_>,
    reader: &mut R,
) -> Result<EndedHouse, Fault<'static>> {
    match lines {
        Lines::Script { config } => { Ok(EndedHouse::of_file(rt.alloc(), config, reader)?) }
        Lines::Stream { config } => Ok(EndedHouse::of_stream(rt.alloc(), config, reader)?),
    }
}
