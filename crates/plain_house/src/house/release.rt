//! Giving a hold back.

ghost use Rattle.cdr_checks.specs.declared.request.Command.TheVariants.{Release as ReleaseCommand};
ghost use Rattle.plain_house.specs.House.{Does};

use super::full::full_for_provider;
use super::replies::{add, refused};
use crate::answer::{Answer, Refused, Replied};
use crate::event::Event;
use crate::holds::released_hold;
use cdr_checks::Release;
use exact_money::Amount;
use ocpi_types::{Config, Refusal};

pub fn release(
    config: &Config,
    events: &mut Vec<Event>,
    release: Release,
) -> Result<Replied, Refused>
    ensures { Does config.now events.old.items (ReleaseCommand release) result events.new.items }
{
    let at = events.len();
    let Some(hold) = released_hold(events.as_slice(), &release) else {
        return Err(refused(at, Refusal::UnknownHold));
    };
    if let Some(what) = full_for_provider(config, events.as_slice(), &release.provider) {
        return Err(refused(at, Refusal::Full { what }));
    }
    let amount = Amount::from_ten_thousandths(hold.amount.get() as i64);
    add(
        events,
        Event::Released(release),
        Answer::Released { amount },
    )
}
