//! The events that lines add.

ghost use Rattle.std.specs.Prelude.{◌≡◌, OnOk};
ghost use Rattle.plain_house.specs.Replies.{with_event};
ghost use Rattle.house_reports.specs.explain_lines.Added.{kept_behind};

use known_events::KnownEvents;
use period_order::BookHouse;
use plain_house::{Event, Refused, Replied, adds_event};
use std::alloc::{AllocError, Global};

/// Adds an event to these, if there is one.
pub fn keep(last: Option<Event>, events: &mut KnownEvents) -> Result<(), AllocError>
    ensures { OnOk result (events.new ≡ with_event events.old last) }
{
    match last {
        Some(event) => events.push(event),
        None => Ok(()),
    }
}

/// Adds the last event of the house to these, if the reply reports one that was added.
pub fn keep_added(
    alloc: Global,
    house: &BookHouse,
    reply: &Result<Replied, Refused>,
    events: &mut KnownEvents,
) -> Result<(), AllocError>
    ensures { OnOk result (events.new ≡ kept_behind reply.now house.now.events events.old) }
{
    if adds_event(reply) {
        keep(house.last_event(alloc)?, events)
    } else {
        Ok(())
    }
}
