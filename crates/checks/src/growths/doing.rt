//! What does one command after another, and what is seen of it by its replies.

ghost use Rattle.std.specs.Prelude.{◌≡◌, IfSome};
ghost use Rattle.cdr_checks.specs.Admission.{IsAdmitted};

use super::telling::{announce, told};
use super::trial::Trial;
use cdr_checks::Command;
use ocpi_types::Config;
use period_order::BookHouse;
use plain_house::{PlainHouse, Refused, Replied, Sequential};
use request_lines::{LineRoom, command_of};
use std::alloc::Global;

/// What does commands under a configuration.
pub trait Doing {
    ghost use Rattle.ocpi_types.specs.declared.config.Config.{Config};

    ghost config: { Self → Config };

    fn do_next(&mut self, command: Command) -> Result<Replied, Refused>
        requires { IsAdmitted (config self.old) command }
        ensures { config self.new ≡ config self.old };
}

impl Doing for PlainHouse {
    ghost config = { λ house. house.config };

    fn do_next(&mut self, command: Command) -> Result<Replied, Refused> {
        self.do_command(command)
    }
}

impl Doing for BookHouse {
    ghost config = { λ house. house.config };

    fn do_next(&mut self, command: Command) -> Result<Replied, Refused> {
        self.do_command(command)
    }
}

// The command of the line, if it has one.
fn command_in(alloc: Global, config: &Config, line: &str) -> Option<Command>
    ensures { IfSome result (IsAdmitted config.now) }
{
    let mut room = LineRoom::new(alloc);
    match command_of(alloc, &mut room, config, line.as_bytes()) {
        Ok(command) => Some(command),
        Err(_) => None,
    }
}

// The reply to the line's command, if it has one.
fn reply<D: Doing>(
    alloc: Global,
    config: &Config,
    house: &mut D,
    line: &str,
) -> Option<Result<Replied, Refused>>
    requires { D.config house.old ≡ config.now }
    ensures { D.config house.new ≡ D.config house.old }
{
    match command_in(alloc, config, line) {
        Some(command) => Some(house.do_next(command)),
        None => None,
    }
}

/// Has the lines' commands done.
pub fn do_lines<D: Doing>(alloc: Global, config: &Config, house: &mut D, lines: &[&str])
    requires { D.config house.old ≡ config.now }
    ensures { D.config house.new ≡ D.config house.old }
{
    for line in lines {
        let _ = reply(alloc, config, house, *line);
    }
}

/// The reply to the last line's command, right behind the announcement.
pub fn announced_reply<D: Doing>(
    rt: &HostRuntime,
    config: &Config,
    house: &mut D,
    kind: &str,
    trial: &Trial<'_>,
) -> Option<Result<Replied, Refused>>
    requires { D.config house.old ≡ config.now }
    ensures { D.config house.new ≡ D.config house.old }
{
    let command = command_in(rt.alloc(), config, trial.line)?;
    if announce(rt, trial, kind).is_err() {
        return None;
    }
    told(rt, house.do_next(command))
}

/// Whether the last line's command is done as expected once more.
pub fn is_done_again<D: Doing>(
    alloc: Global,
    config: &Config,
    house: &mut D,
    trial: &Trial<'_>,
) -> bool
    requires { D.config house.old ≡ config.now }
{
    match reply(alloc, config, house, trial.line) {
        Some(reply) => trial.is_expected(&reply),
        None => false,
    }
}
