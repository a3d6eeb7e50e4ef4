//! The CDRs and Credit CDRs of a list of events.

ghost use Rattle.std.specs.Prelude.{◌≡◌, ◌&&◌, find, option_map};
ghost use Rattle.std.specs.List.{list_any};
ghost use Rattle.ocpi_json.specs.Folded.{same_folded};
ghost use Rattle.ocpi_types.specs.Party.{same_party};
ghost use Rattle.plain_house.specs.Booked.{booked, booked_as, has_id, is_credited, shown_booked};
ghost use Rattle.plain_house.specs.Entries.{book_entries, book_entry};
ghost use Rattle.plain_house.specs.Happened.{takes_back};
ghost use Rattle.plain_house.specs.Inner.Scanned.{booked_of_event};

use super::booked_amount::BookedAmount;
use super::event::Event;
use super::holds::names;
use super::periods::period_after;
use ocpi_json::ci_text::CiText;
use ocpi_types::{Cdr, Party};

/// A CDR or Credit CDR, the amount at which it is booked, and the period.
#[derive(Clone, Copy)]
pub struct BookedCdr<'a> {
    pub cdr: &'a Cdr,
    pub amount: BookedAmount,
    pub period: u64,
}

fn has_id(cdr: &Cdr, operator: &Party, id: &CiText<39>) -> bool
    ensures { result ≡ (same_party cdr.now.operator operator.now && same_folded cdr.now.id id.now) }
{
    cdr.operator.is(operator) && cdr.id == *id
}

/// The CDR or Credit CDR of an event that stands in the period.
pub fn booked_in(event: &Event, period: u64) -> Option<BookedCdr<'_>>
    ensures { option_map shown_booked result ≡ booked_of_event event.now period }
{
    match event {
        Event::Cdr { cdr, cost } => Some(BookedCdr {
            cdr,
            amount: BookedAmount::of_cost(*cost),
            period,
        }),
        Event::Credit { cdr, amount } => Some(BookedCdr {
            cdr,
            amount: *amount,
            period,
        }),
        _ => None,
    }
}

// The CDR of the event, where it has that operator and id.
fn booked_as_in<'a>(
    event: &'a Event,
    period: u64,
    operator: &Party,
    id: &CiText<39>,
) -> Option<BookedCdr<'a>>
    ensures { option_map shown_booked result ≡ find (has_id operator.now id.now) (booked (book_entry event.now period)) }
{
    match booked_in(event, period) {
        Some(found) if has_id(found.cdr, operator, id) => Some(found),
        _ => None,
    }
}

/// Returns the CDR or Credit CDR of that operator and id, with its amount and period.
#[tactic(auto, using(crate::proofs::BookedLemmas::first_booked))]
pub fn booked_as<'a>(
    events: &'a [Event],
    operator: &Party,
    id: &CiText<39>,
) -> Option<BookedCdr<'a>>
    ensures { option_map shown_booked result ≡ booked_as operator.now id.now (book_entries events.now) }
{
    let mut period = 0;
    let mut rest = events;
    while let Some((event, later)) = rest.split_first() {
        let found = booked_as_in(event, period, operator, id);
        if found.is_some() {
            return found;
        }
        period = period_after(period, event);
        rest = later;
    }
    None
}

// Whether the event books a CDR or Credit CDR that credits the CDR of that operator and id.
#[tactic(auto, using(crate::proofs::EntriesLemmas::one_entry))]
fn credits(event: &Event, operator: &Party, id: &CiText<39>) -> bool
    ensures { result ≡ takes_back operator.now id.now event.now }
{
    match event {
        Event::Cdr { cdr, .. } => cdr.operator.is(operator) && names(id, &cdr.credit),
        Event::Credit { cdr, .. } => cdr.operator.is(operator) && names(id, &cdr.credit),
        _ => false,
    }
}

fn is_credited_by_any(events: &[Event], operator: &Party, id: &CiText<39>) -> bool
    ensures { result ≡ list_any (takes_back operator.now id.now) events.now }
{
    events.iter().any(|event| credits(event, operator, id))
}

/// A Credit CDR credits the CDR of that operator and id.
#[tactic(auto, using(crate::proofs::EntriesLemmas::credited_in_events))]
pub fn is_credited(events: &[Event], operator: &Party, id: &CiText<39>) -> bool
    ensures { result ≡ is_credited operator.now id.now (book_entries events.now) }
{
    is_credited_by_any(events, operator, id)
}
