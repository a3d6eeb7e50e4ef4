//! Why a period cannot be closed, settled or stated.

ghost use Rattle.std.specs.Prelude.{◌≡◌};
ghost use Rattle.house_causes.specs.Periods.{not_closed, not_current, settled_already};

use crate::house_cause::{HouseCause, HouseReason};
use cdr_checks::{Place, Settlement};
use known_events::KnownEvents;
use ocpi_json::name::Name;

/// The period to close is not the current one.
pub fn not_current(period: u64, current: u64) -> HouseCause
    ensures { result ≡ not_current period current }
{
    let reason = if period < current {
        HouseReason::ClosedAlready { period, current }
    } else {
        HouseReason::NotCurrentYet { period, current }
    };
    HouseCause::at(Place::at(Name::Period), reason)
}

/// The period to settle or to state is not closed.
pub fn not_closed(events: &KnownEvents, period: u64) -> HouseCause
    ensures { result ≡ not_closed events.now period }
{
    let current = events.period();
    let reason = HouseReason::NotClosedYet { period, current };
    HouseCause::at(Place::at(Name::Period), reason)
}

/// The period is settled.
pub fn settled_already(events: &KnownEvents, settlement: &Settlement) -> HouseCause
    ensures { result ≡ settled_already events.now settlement.now }
{
    HouseCause {
        place: Some(Place::at(Name::Period)),
        reason: HouseReason::SettledAlready {
            period: settlement.period,
        },
        event: events.settled_at(settlement),
    }
}
