//! Why a release ends no hold.

ghost use Rattle.std.specs.Prelude.{◌≡◌};
ghost use Rattle.known_events.specs.After.{IsFirstGiven};
ghost use Rattle.house_causes.specs.Holds.{by_event, ended, never_given, unknown_hold, why_ended, why_not_open};

use crate::house_cause::{HouseCause, HouseReason};
use cdr_checks::{Place, Release};
use known_events::KnownEvents;
use ocpi_json::ci_text::CiText;
use ocpi_json::name::Name;
use plain_house::{Event, Hold};

// A cause at the reference, by an event.
fn by_event(reason: HouseReason, at: usize) -> HouseCause
    ensures { result ≡ by_event reason at }
{
    HouseCause {
        place: Some(Place::at(Name::Reference)),
        reason,
        event: Some(at),
    }
}

// What ended a hold: a CDR that used it up, or its release.
fn why_ended(reference: CiText<36>, event: &Event) -> Option<HouseReason>
    ensures { result ≡ why_ended reference event.now }
{
    match event {
        Event::Cdr { cdr, .. } => Some(HouseReason::UsedUp {
            reference,
            cdr: cdr.id,
        }),
        Event::Released(_) => Some(HouseReason::ReleasedAlready { reference }),
        _ => None,
    }
}

// The event that ended the hold, which the event at `given` was the first to give.
fn ended(events: &KnownEvents, release: &Release, given: usize, hold: &Hold) -> Option<HouseCause>
    ensures { IsFirstGiven events.now release.now given hold.now → result ≡ ended events.now release.now given hold.now }
{
    let at = events.ended_at(hold)?;
    let reason = why_ended(release.reference, events.get(at)?)?;
    Some(by_event(reason, at))
}

// Why a hold, which the event at `given` was the first to give, is not open for the release.
fn why_not_open(
    events: &KnownEvents,
    release: &Release,
    given: usize,
    hold: &Hold,
) -> Option<HouseCause>
    ensures { IsFirstGiven events.now release.now given hold.now → result ≡ why_not_open events.now release.now given hold.now }
{
    if hold.operator.is(&release.operator) {
        return ended(events, release, given, hold);
    }
    let reason = HouseReason::GivenToAnother {
        reference: release.reference,
        operator: hold.operator,
    };
    Some(by_event(reason, given))
}

// The provider never got a hold of this reference.
fn never_given(release: &Release) -> HouseCause
    ensures { result ≡ never_given release.now }
{
    let reason = HouseReason::NeverGiven {
        reference: release.reference,
    };
    HouseCause::at(Place::at(Name::Reference), reason)
}

/// Why no open hold has the reference of the release: it was never given, or to another operator, or it has ended.
#[tactic(auto, unfolding(crate::specs::Holds::unknown_hold))]
pub fn unknown_hold(events: &KnownEvents, release: &Release) -> Option<HouseCause>
    ensures { result ≡ unknown_hold events.now release.now }
{
    let Some(at) = events.authorised_at(release) else {
        return Some(never_given(release));
    };
    let Event::Authorised(hold) = events.get(at)? else {
        return None;
    };
    why_not_open(events, release, at, hold)
}
