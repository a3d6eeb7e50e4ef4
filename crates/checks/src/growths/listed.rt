//! Houses that are told one command after another, and whose events can be listed.

ghost use Rattle.std.specs.Prelude.{◌≡◌};

use super::doing::{Doing, announced_reply, do_lines, is_done_again};
use super::telling::tell;
use super::trial::{Outcome, Trial};
use crate::check_fault::CheckFault;
use ocpi_json::same::are_same;
use ocpi_types::{Config, TryCopy};
use period_order::BookHouse;
use plain_house::{Event, PlainHouse, Refused, Replied, is_out_of_memory};
use request_lines::{LineRoom, reply_to};
use std::alloc::{AllocError, Global};

/// A house whose events can be listed.
pub trait Listed {
    /// What has happened is this list, and there is memory to list it.
    fn has_events(&self, alloc: Global, events: &[Event]) -> bool;
}

impl Listed for PlainHouse {
    fn has_events(&self, _alloc: Global, events: &[Event]) -> bool {
        are_same(self.events(), events)
    }
}

impl Listed for BookHouse {
    fn has_events(&self, alloc: Global, events: &[Event]) -> bool {
        match self.events(alloc) {
            Ok(own) => are_same(own.as_slice(), events),
            Err(AllocError) => false,
        }
    }
}

/// Two houses of one list, of which one is a line ahead, and the configuration of both.
#[derive(Drop)]
pub struct Lists {
    config: Config,
    before: PlainHouse,
    behind: PlainHouse,
    room: LineRoom,
    ghost before_same: { before.config ≡ config },
    ghost behind_same: { behind.config ≡ config },
}

impl Lists {
    pub fn new(alloc: Global, config: &Config) -> Result<Lists, AllocError> {
        let before = PlainHouse::new(alloc, config.copy(alloc)?);
        let behind = PlainHouse::new(alloc, config.copy(alloc)?);
        Ok(Lists {
            config: config.copy(alloc)?,
            before,
            behind,
            room: LineRoom::new(alloc),
        })
    }

    /// The reply to the line, of the house that is ahead.
    pub fn reply(&mut self, alloc: Global, line: &str) -> Result<Replied, Refused> {
        reply_to(
            alloc,
            &mut self.room,
            &self.config,
            &mut self.behind,
            line.as_bytes(),
        )
    }

    /// Has the other house do the line too.
    pub fn follow(&mut self, alloc: Global, line: &str) {
        let _ = reply_to(
            alloc,
            &mut self.room,
            &self.config,
            &mut self.before,
            line.as_bytes(),
        );
    }

    /// The line to which this is the reply, as it is to be tried.
    pub fn trial<'a>(
        &'a self,
        before: &'a [&'a str],
        line: &'a str,
        reply: &'a Result<Replied, Refused>,
    ) -> Trial<'a> {
        Trial {
            before,
            line,
            events_before: self.before.events(),
            events: self.behind.events(),
            reply,
        }
    }
}

// How the house did the command to which this is the reply. Where memory was refused, nothing is to have changed, and the command is
// done once more.
fn outcome<D: Doing + Listed>(
    alloc: Global,
    config: &Config,
    house: &mut D,
    trial: &Trial<'_>,
    reply: &Result<Replied, Refused>,
) -> Outcome
    requires { D.config house.old ≡ config.now }
{
    let outcome = if is_out_of_memory(reply) {
        let is_unchanged = house.has_events(alloc, trial.events_before);
        let is_done = is_done_again(alloc, config, house, trial);
        Outcome::only_if(is_unchanged && is_done, Outcome::UnchangedAndDone)
    } else {
        Outcome::only_if(trial.is_expected(reply), Outcome::Done)
    };
    Outcome::only_if(house.has_events(alloc, trial.events), outcome)
}

/// Does the lines by an empty house of this kind, and tells how it does the last one.
pub fn try_listed<D: Doing + Listed>(
    rt: &HostRuntime,
    config: &Config,
    house: &mut D,
    kind: &str,
    trial: &Trial<'_>,
) -> Result<(), CheckFault<'static>>
    requires { D.config house.old ≡ config.now }
{
    do_lines(rt.alloc(), config, house, trial.before);
    let outcome = match announced_reply(rt, config, house, kind, trial) {
        Some(reply) => outcome(rt.alloc(), config, house, trial, &reply),
        None => Outcome::Otherwise,
    };
    tell(rt, outcome)
}
