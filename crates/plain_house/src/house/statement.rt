//! The statement of a party.

ghost use Rattle.std.specs.Prelude.{◌≡◌};
ghost use Rattle.plain_house.specs.Entries.{book_entries};
ghost use Rattle.plain_house.specs.House.{stated};
ghost use Rattle.plain_house.specs.Known.{known};
ghost use Rattle.plain_house.specs.LegalLists.{CanBeNetted};
ghost use Rattle.plain_house.specs.Replies.{Follows};

use super::replies::{refused, replied};
use crate::answer::{Answer, Refused, Replied};
use crate::event::Event;
use crate::obligations::statement_rows;
use crate::periods::period_of;
use crate::replies::out_of_memory;
use cdr_checks::StatementOf;
use ocpi_types::{Config, Refusal};
use std::alloc::Global;

pub fn statement(
    alloc: Global,
    config: &Config,
    events: &[Event],
    ask: StatementOf,
) -> Result<Replied, Refused>
    requires { CanBeNetted config.now (book_entries events.now) }
    ensures { Follows (stated (known events.now) ask) events.now result events.now }
{
    let at = events.len();
    if period_of(events) <= ask.period {
        return Err(refused(at, Refusal::PeriodOpen));
    }
    let Ok(rows) = statement_rows(alloc, config, events, ask.period, &ask.party) else {
        return Err(out_of_memory());
    };
    Ok(replied(at, Answer::Statement { rows }))
}
