//! The CDRs and Credit CDRs that are booked.

ghost use Rattle.std.specs.Prelude.{◌≡◌};
ghost use Rattle.house_causes.specs.Bookings.{booking_conflict, no_cdr};

use crate::house_cause::{HouseCause, HouseReason};
use cdr_checks::{Find, Place};
use known_events::KnownEvents;
use ocpi_json::name::Name;
use ocpi_types::{Cdr, difference_of_cdrs};

/// Why a CDR or Credit CDR is not booked: its id is booked with other content.
#[tactic(auto, unfolding(crate::specs::Bookings::booking_conflict))]
pub fn booking_conflict(events: &KnownEvents, cdr: &Cdr) -> Option<HouseCause>
    ensures { result ≡ booking_conflict events.now cdr.now }
{
    let Some(found) = events.booked_as(&cdr.operator, &cdr.id) else {
        return None;
    };
    let member = difference_of_cdrs(found.cdr, cdr)?;
    Some(HouseCause {
        place: Some(Place::inside(Name::Cdr, member)),
        reason: HouseReason::BookedOtherwise {
            amount: found.amount.amount(),
        },
        event: events.booked_at(&cdr.operator, &cdr.id),
    })
}

/// Why a CDR is not found.
pub fn no_cdr(find: &Find) -> HouseCause
    ensures { result ≡ no_cdr find.now }
{
    HouseCause::at(Place::at(Name::Id), HouseReason::NoCdr { id: find.id })
}
