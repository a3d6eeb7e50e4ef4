ghost use Rattle.std.specs.Prelude.{◌≡◌, []};
ghost use Rattle.plain_house.specs.Entries.{account_entries, book_entries};
ghost use Rattle.plain_house.specs.House.{Does};
ghost use Rattle.plain_house.specs.LegalLists.{CanBeNetted, KeepsLimits};
ghost use Rattle.plain_house.specs.Legal.{IsLegal};

use super::answer::{Refused, Replied};
use super::event::Event;
use super::sequential::Sequential;
use cdr_checks::{Command, posts_are_checked};
use ocpi_types::Config;
use std::alloc::Global;
use std::marker::Model;

mod authorize;
mod close;
mod credit;
mod exposure;
mod find;
mod full;
mod post;
mod put_tariff;
mod put_token;
mod release;
mod replies;
mod settle;
mod statement;

fn reply(config: &Config, events: &mut Vec<Event>, command: Command) -> Result<Replied, Refused>
    requires limits { KeepsLimits config.now (account_entries events.old.items) }
    requires netting { CanBeNetted config.now (book_entries events.old.items) }
    ensures { Does config.now events.old.items command result events.new.items }
{
    match command {
        Command::PutTariff(tariff) => put_tariff::put_tariff(config, events, tariff),
        Command::PutToken(token) => put_token::put_token(config, events, token),
        Command::Authorize(ask) => authorize::authorize(config, events, ask),
        Command::Release(release) => release::release(config, events, release),
        Command::Post(checked) => post::post(config, events, checked),
        Command::Close(close) => close::close(config, events, close),
        Command::Settle(settlement) => settle::settle(config, events, settlement),
        Command::Exposure(ask) => Ok(exposure::exposure(config, events.as_slice(), ask)),
        Command::Find(find) => find::find(events.as_slice(), find),
        Command::Statement(ask) => {
            let alloc = *events.allocator();
            statement::statement(alloc, config, events.as_slice(), ask)
        }
    }
}

/// A house of one list of events.
#[derive(Drop)]
pub struct PlainHouse {
    config: Config,
    events: Vec<Event>,
}

impl Model for PlainHouse {
    ghost use Rattle.plain_house.specs.State.{State};
    ghost use Rattle.plain_house.specs.Legal.{IsLegal};

    ghost Value = { State };

    ghost view = { λ house. record { config = house.config; events = house.events.items } };

    ghost invariant = { λ house. IsLegal house.config house.events.items };
}

impl PlainHouse {
    /// An empty house.
    pub fn new(alloc: Global, config: Config) -> Self
        ensures config { result.config ≡ config }
        ensures events { result.events ≡ [] }
    {
        PlainHouse {
            config,
            events: Vec::new(alloc),
        }
    }

    /// What has happened, the first event first.
    pub fn events(&self) -> &[Event]
        ensures { result.now ≡ self.now.events }
    {
        self.events.as_slice()
    }

    /// States that what has happened is legal under the configuration.
    pub fn has_legal_list(&self)
        ensures { IsLegal self.now.config self.now.events }
    {
        let _ = &self.events;
    }
}

impl Sequential for PlainHouse {
    ghost events = { λ house. house.events };

    ghost config = { λ house. house.config };

    fn do_command(&mut self, command: Command) -> Result<Replied, Refused> {
        self.config.is_bounded();
        posts_are_checked();
        reply(&self.config, &mut self.events, command)
    }
}
