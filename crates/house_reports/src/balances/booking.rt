//! The bookings and the settlements in a list of events.

ghost use Rattle.std.specs.Prelude.{◌≡◌, IfOk};
ghost use Rattle.std.specs.Option.{option_to_list};
ghost use Rattle.house_reports.specs.balances.Bookings.{booking_in, booking_of, bookings, settlement_in, settlements};

use super::settled::Settlements;
use cdr_checks::Settlement;
use ocpi_types::{Cdr, Currency, Party};
use plain_house::{BookedAmount, Event, period_after};
use std::alloc::{AllocError, Global};

/// The booking of a CDR or Credit CDR.
#[derive(Clone, Copy)]
pub struct Booking {
    pub period: u64,
    pub currency: Currency,
    pub operator: Party,
    pub provider: Party,
    /// The amount at which it is booked.
    pub amount: BookedAmount,
}

fn booking_of(cdr: &Cdr, amount: BookedAmount, period: u64) -> Booking
    ensures { result ≡ booking_of cdr.now amount period }
{
    Booking {
        period,
        currency: cdr.currency,
        operator: cdr.operator,
        provider: cdr.cdr_token.provider,
        amount,
    }
}

fn booking_in(event: &Event, period: u64) -> Option<Booking>
    ensures { option_to_list result ≡ booking_in event.now period }
{
    match event {
        Event::Cdr { cdr, cost } => Some(booking_of(cdr, BookedAmount::of_cost(*cost), period)),
        Event::Credit { cdr, amount } => Some(booking_of(cdr, *amount, period)),
        Event::Tariff(_)
        | Event::Token(_)
        | Event::Authorised(_)
        | Event::Released(_)
        | Event::Settled(_)
        | Event::Closed { .. } => None,
    }
}

fn settlement_in(event: &Event) -> Option<Settlement>
    ensures { option_to_list result ≡ settlement_in event.now }
{
    match event {
        Event::Settled(settlement) => Some(*settlement),
        Event::Tariff(_)
        | Event::Token(_)
        | Event::Authorised(_)
        | Event::Released(_)
        | Event::Cdr { .. }
        | Event::Credit { .. }
        | Event::Closed { .. } => None,
    }
}

/// Returns the bookings, in the order of the events.
pub fn bookings(alloc: Global, events: &[Event]) -> Result<Vec<Booking>, AllocError>
    ensures { IfOk result (λ found. found.items ≡ bookings events.now) }
{
    let mut found = Vec::new(alloc);
    let mut period = 0;
    let mut rest = events;
    while let Some((event, later)) = rest.split_first() {
        if let Some(booking) = booking_in(event, period) {
            found.push(booking)?;
        }
        period = period_after(period, event);
        rest = later;
    }
    Ok(found)
}

/// Returns the settlements, in the order of the events.
pub fn settlements(alloc: Global, events: &[Event]) -> Result<Settlements, AllocError>
    ensures { IfOk result (λ found. found ≡ settlements events.now) }
{
    let mut found = Settlements::new(alloc);
    let mut rest = events;
    while let Some((event, later)) = rest.split_first() {
        if let Some(settlement) = settlement_in(event) {
            found.push(&settlement)?;
        }
        rest = later;
    }
    Ok(found)
}
