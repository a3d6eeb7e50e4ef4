//! The stored versions of tariffs.

ghost use Rattle.std.specs.Prelude.{◌≡◌};
ghost use Rattle.house_causes.specs.Versions.{not_registered, not_stored, stored_difference, tariff_at, version_conflict, why_unregistered};

use crate::house_cause::{HouseCause, HouseReason};
use cdr_checks::Place;
use known_events::KnownEvents;
use ocpi_json::name::Name;
use ocpi_json::{Around, Step};
use ocpi_types::{Cdr, Tariff, difference_of_tariffs};
use plain_house::Event;

// The first member in which the stored version differs, and the event that stored it.
fn stored_difference(events: &KnownEvents, tariff: &Tariff) -> Option<(Name, usize)>
    ensures { result ≡ stored_difference events.now tariff.now }
{
    let at = events.stored_at(tariff)?;
    let Event::Tariff(stored) = events.get(at)? else {
        return None;
    };
    Some((difference_of_tariffs(stored, tariff)?, at))
}

/// Why a tariff is not stored: its version is stored with other content.
#[tactic(auto, unfolding(crate::specs::Versions::version_conflict))]
pub fn version_conflict(events: &KnownEvents, tariff: &Tariff) -> Option<HouseCause>
    ensures { result ≡ version_conflict events.now tariff.now }
{
    let (member, at) = stored_difference(events, tariff)?;
    Some(HouseCause {
        place: Some(Place::inside(Name::Tariff, member)),
        reason: HouseReason::StoredOtherwise,
        event: Some(at),
    })
}

// A tariff of a CDR, by its number.
fn tariff_at(number: usize) -> Place
    ensures { result ≡ tariff_at number }
{
    Place {
        around: Around::One(Step::Member(Name::Cdr)),
        member: Step::item(Name::Tariffs, number),
    }
}

// A tariff of a CDR, by its number, that is not stored, or has other content where it is stored.
fn not_stored(number: usize, tariff: &Tariff, difference: Option<(Name, usize)>) -> HouseCause
    ensures { result ≡ not_stored number tariff.now difference }
{
    match difference {
        Some((member, at)) => HouseCause {
            place: Some(Place::in_item(Name::Tariffs, number, member)),
            reason: HouseReason::RegisteredOtherwise,
            event: Some(at),
        },
        None => HouseCause::at(
            Place::in_item(Name::Tariffs, number, Name::LastUpdated),
            HouseReason::NotRegistered {
                last_updated: tariff.last_updated,
            },
        ),
    }
}

// Why a tariff of a CDR, by its number, is not registered.
fn why_unregistered(events: &KnownEvents, cdr: &Cdr, number: usize, tariff: &Tariff) -> HouseCause
    ensures { result ≡ why_unregistered events.now cdr.now number tariff.now }
{
    if tariff.operator.is(&cdr.operator) {
        not_stored(number, tariff, stored_difference(events, tariff))
    } else {
        let reason = HouseReason::OfAnotherOperator {
            found: tariff.operator,
            operator: cdr.operator,
        };
        HouseCause::at(tariff_at(number), reason)
    }
}

/// Why the first tariff of the CDR that no event registers is not registered.
#[tactic(auto, unfolding(crate::specs::Versions::not_registered))]
pub fn not_registered(events: &KnownEvents, cdr: &Cdr) -> Option<HouseCause>
    ensures { result ≡ not_registered events.now cdr.now }
{
    let number = events.unregistered(cdr)?;
    let tariff = cdr.tariffs.as_slice().get(number)?;
    Some(why_unregistered(events, cdr, number, tariff))
}
