//! Each command of the lines done by every kind of house, behind those before it, where a growth that it asks for may be refused.
//!
//! A line of output begins with the number of the line and the kind of house. The command is done right behind the colon and the
//! space that follow, so that `tests/suites/refused_commands` can refuse the requests for memory from there up to the next write, and no others.

mod doing;
mod listed;
mod stepped;
mod telling;
mod trial;

use crate::check_fault::CheckFault;
use crate::files::config_in;
use crate::shared;
use command_line::Fault;
pub use doing::{Doing, announced_reply, do_lines, is_done_again};
use listed::{Lists, try_listed};
use ocpi_types::{Config, TryCopy};
use period_order::BookHouse;
use plain_house::PlainHouse;
use std::io::Read;
use std::sync::Wait;
use std::thread::Threads;
use stepped::try_steps;
pub use telling::tell;
pub use trial::{Outcome, Trial};

fn try_list(
    rt: &HostRuntime,
    config: &Config,
    trial: &Trial<'_>,
) -> Result<(), CheckFault<'static>> {
    let mut house = PlainHouse::new(rt.alloc(), config.copy(rt.alloc())?);
    try_listed(rt, config, &mut house, "plain", trial)
}

fn try_books(
    rt: &HostRuntime,
    config: &Config,
    trial: &Trial<'_>,
) -> Result<(), CheckFault<'static>> {
    let mut house = BookHouse::new(rt.alloc(), config.copy(rt.alloc())?)?;
    try_listed(rt, config, &mut house, "books", trial)
}

// Does the last line of the trial by every kind of house.
fn try_all(
    rt: &HostRuntime,
    threads: &(impl Threads + Wait + Sync),
    config: &Config,
    trial: &Trial<'_>,
) -> Result<(), CheckFault<'static>> {
    try_list(rt, config, trial)?;
    try_books(rt, config, trial)?;
    try_steps(rt, config, trial)?;
    shared::try_growths(rt, threads, config, trial, false)?;
    shared::try_growths(rt, threads, config, trial, true)
}

fn try_lines(
    rt: &HostRuntime,
    threads: &(impl Threads + Wait + Sync),
    config: &Config,
    lines: &[&str],
    lists: &mut Lists,
) -> Result<(), CheckFault<'static>> {
    for number in 0..lines.len() {
        let line = lines[number];
        let reply = lists.reply(rt.alloc(), line);
        let trial = lists.trial(&lines[..number], line, &reply);
        try_all(rt, threads, config, &trial)?;
        lists.follow(rt.alloc(), line);
    }
    Ok(())
}

fn try_text(
    rt: &HostRuntime,
    threads: &(impl Threads + Wait + Sync),
    config: &Config,
    text: &str,
) -> Result<(), CheckFault<'static>> {
    let lines = text.lines().collect::<Vec<&str>>(rt.alloc())?;
    let mut lists = Lists::new(rt.alloc(), config)?;
    try_lines(rt, threads, config, lines.as_slice(), &mut lists)
}

/// Tells of the command of each line of the reader how every kind of house does it, behind those before it. Lines without one are
/// told as not as expected.
pub fn try_commands<'a, R: Read + Drop>(
    rt: &HostRuntime,
    threads: &(impl Threads + Wait + Sync),
    path: &'a str,
    mut reader: R,
) -> Result<(), CheckFault<'a>> {
    let config = config_in(rt, path)?;
    let mut text = String::new(rt.alloc());
    match reader.read_to_string(&mut text) {
        Ok(_) => try_text(rt, threads, &config, text.as_str()),
        Err(_) => Err(CheckFault::from(Fault::CannotReadInput)),
    }
}
