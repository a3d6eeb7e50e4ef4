//! Storing a token.

ghost use Rattle.cdr_checks.specs.declared.request.Command.TheVariants.{PutToken};
ghost use Rattle.plain_house.specs.House.{Does};

use super::full::full_for_provider;
use super::replies::{add, refused};
use crate::answer::{Answer, Refused, Replied};
use crate::event::Event;
use ocpi_types::{Config, Refusal, Token};

pub fn put_token(config: &Config, events: &mut Vec<Event>, token: Token) -> Result<Replied, Refused>
    ensures { Does config.now events.old.items (PutToken token) result events.new.items }
{
    if let Some(what) = full_for_provider(config, events.as_slice(), &token.provider) {
        return Err(refused(events.len(), Refusal::Full { what }));
    }
    add(events, Event::Token(token), Answer::Stored)
}
