//! The periods in which events stand.

ghost use Rattle.std.specs.Prelude.{◌≡◌, ◌<◌, ◌≤◌, ◌+◌, ◌^◌, length, position};
ghost use Rattle.plain_house.specs.Entries.{book_entries, is_close, period_after, period_of};
ghost use Rattle.plain_house.specs.Obligations.{GoesOnFrom, obligations};

use super::event::Event;

fn is_close(event: &Event) -> bool
    ensures { result ≡ is_close event.now }
{
    match event {
        Event::Closed { .. } => true,
        _ => false,
    }
}

/// The period after an event that stands in this one.
pub fn period_after(period: u64, event: &Event) -> u64
    requires { period + 1 < 2 ^ 64 }
    ensures value { result ≡ period_after period event.now }
    ensures bound { result ≤ period + 1 }
{
    if is_close(event) { period + 1 } else { period }
}

/// The current period: how many closes there are.
#[tactic(auto, using(crate::proofs::PeriodsLemmas::next_period))]
pub fn period_of(events: &[Event]) -> u64
    ensures value { result ≡ period_of events.now }
    ensures bound { result ≤ length events.now }
{
    let mut period = 0;
    let mut rest = events;
    while let Some((event, later)) = rest.split_first() {
        period = period_after(period, event);
        rest = later;
    }
    period
}

fn first_close(events: &[Event]) -> Option<usize>
    ensures { result ≡ position is_close events.now }
{
    events.iter().position(|event| is_close(event))
}

/// The events of the first period, with its close where it is closed, and those of the later periods.
pub fn split_first_period(events: &[Event]) -> (&[Event], &[Event])
    ensures first { obligations 0 (book_entries result.0.now) ≡ obligations 0 (book_entries events.now) }
    ensures later { GoesOnFrom events.now 1 result.1.now }
{
    let length = match first_close(events) {
        Some(close) => close + 1,
        None => events.len(),
    };
    events.split_at(length)
}
