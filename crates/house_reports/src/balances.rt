//! The amounts of each period that each provider owes each operator, how much of them is settled and how much is open, as CSV or as a
//! table for a terminal.

mod all_rows;
mod booking;
mod csv_text;
mod fields;
mod form;
mod in_order;
mod laws;
mod printed;
mod row;
mod settled;
mod terminal_text;

use crate::command::Lines;
use crate::ended_house::{EndedHouse, house_of, tell_refused};
use command_line::{Arguments, Fault, Output};
use form::{Form, form_of};
use printed::print;
use request_lines::{Device, Source};
use std::cell::Cell;

fn print_house(
    rt: &HostRuntime,
    is_gone: &Cell<bool>,
    ended: &EndedHouse,
    form: Form,
) -> Result<(), Fault<'static>> {
    let mut writer = Device::new(Output::new(rt.stdout(), is_gone));
    print(rt.alloc(), &mut writer, ended, form)?;
    let _ = tell_refused(rt, ended.refused());
    Ok(())
}

/// Prints the balances of the house after the lines of a reader, and the number of refused lines on standard error.
pub fn perform<R: Source>(
    rt: &HostRuntime,
    is_gone: &Cell<bool>,
    arguments: &Arguments<'_>,
    lines: Lines<'_>,
    reader: &mut R,
) -> Result<u8, Fault<'static>> {
    let form = form_of(arguments);
    let ended = house_of(rt, lines, reader)?;
    print_house(rt, is_gone, &ended, form)?;
    Ok(0)
}
