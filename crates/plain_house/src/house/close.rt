//! Closing a period.

ghost use Rattle.std.specs.Prelude.{◌≡◌};
ghost use Rattle.cdr_checks.specs.declared.request.Command.TheVariants.{Close as CloseCommand};
ghost use Rattle.plain_house.specs.Entries.{book_entries};
ghost use Rattle.plain_house.specs.House.{Does};
ghost use Rattle.plain_house.specs.LegalLists.{CanBeNetted};
ghost use Rattle.plain_house.specs.Replies.{Follows};

use super::full::full_for_close;
use super::replies::{add, refused};
use crate::answer::{Answer, Refused, Replied};
use crate::event::Event;
use crate::obligations::positions_in;
use crate::periods::period_of;
use crate::replies::out_of_memory;
use cdr_checks::Close;
use ocpi_types::{Config, Refusal};

pub fn close(config: &Config, events: &mut Vec<Event>, close: Close) -> Result<Replied, Refused>
    requires { CanBeNetted config.now (book_entries events.old.items) }
    ensures { Does config.now events.old.items (CloseCommand close) result events.new.items }
{
    let at = events.len();
    let period = close.period;
    let current = period_of(events.as_slice());
    if period != current {
        return Err(refused(at, Refusal::NotCurrent { current }));
    }
    if let Some(what) = full_for_close(config, events.as_slice()) {
        return Err(refused(at, Refusal::Full { what }));
    }
    let alloc = *events.allocator();
    let Ok(positions) = positions_in(alloc, config, events.as_slice(), period) else {
        return Err(out_of_memory());
    };
    add(
        events,
        Event::Closed { period },
        Answer::Closed { period, positions },
    )
}
