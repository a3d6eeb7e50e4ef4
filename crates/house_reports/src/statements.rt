//! The order of events, and for each closed period the statement of each party, as CSV.

mod printed;
mod text;

use crate::command::Lines;
use crate::ended_house::{EndedHouse, house_of, tell_refused};
use command_line::{Fault, Output};
use printed::print;
use request_lines::{Device, Source};
use std::cell::Cell;

fn print_house(
    rt: &HostRuntime,
    is_gone: &Cell<bool>,
    ended: &EndedHouse,
) -> Result<(), Fault<'static>> {
    let mut writer = Device::new(Output::new(rt.stdout(), is_gone));
    print(rt.alloc(), &mut writer, ended)?;
    let _ = tell_refused(rt, ended.refused());
    Ok(())
}

/// Prints the statements of the house after the lines of a reader, and the number of refused lines on standard error.
pub fn perform<R: Source>(
    rt: &HostRuntime,
    is_gone: &Cell<bool>,
    lines: Lines<'_>,
    reader: &mut R,
) -> Result<u8, Fault<'static>> {
    let ended = house_of(rt, lines, reader)?;
    print_house(rt, is_gone, &ended)?;
    Ok(0)
}
