//! Storing a version of a tariff.

ghost use Rattle.std.specs.Prelude.{◌≡◌};
ghost use Rattle.cdr_checks.specs.declared.request.Command.TheVariants.{PutTariff};
ghost use Rattle.plain_house.specs.House.{Does};

use super::full::full_for_tariff;
use super::replies::{add, refused, replied};
use crate::answer::{Answer, Refused, Replied};
use crate::event::Event;
use crate::tariffs::stored_version;
use ocpi_types::{Config, Refusal, Shared, Tariff, same_tariff};

pub fn put_tariff(
    config: &Config,
    events: &mut Vec<Event>,
    tariff: Shared<Tariff>,
) -> Result<Replied, Refused>
    ensures { Does config.now events.old.items (PutTariff tariff) result events.new.items }
{
    let at = events.len();
    if let Some(stored) = stored_version(events.as_slice(), &tariff) {
        return if same_tariff(stored, &tariff) {
            Ok(replied(at, Answer::Unchanged))
        } else {
            Err(refused(at, Refusal::Conflict))
        };
    }
    if let Some(what) = full_for_tariff(config, events.as_slice(), &tariff.operator) {
        return Err(refused(at, Refusal::Full { what }));
    }
    add(events, Event::Tariff(tariff), Answer::Stored)
}
