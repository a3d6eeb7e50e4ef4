//! Why a token does not authorise.

ghost use Rattle.std.specs.Prelude.{◌≡◌};
ghost use Rattle.house_causes.specs.Tokens.{blocked, unknown_token};

use crate::house_cause::{HouseCause, HouseReason};
use cdr_checks::{Authorize, Place};
use known_events::KnownEvents;
use ocpi_json::name::Name;
use plain_house::Event;

/// Why the provider has no such token: none of this uid is put, or the first one is of another type.
#[tactic(auto, unfolding(crate::specs::Tokens::unknown_token))]
pub fn unknown_token(events: &KnownEvents, ask: &Authorize) -> Option<HouseCause>
    ensures { result ≡ unknown_token events.now ask.now }
{
    let Some(at) = events.put_at(ask) else {
        let reason = HouseReason::NotPut { uid: ask.uid };
        return Some(HouseCause::at(Place::at(Name::Uid), reason));
    };
    let Event::Token(token) = events.get(at)? else {
        return None;
    };
    Some(HouseCause {
        place: Some(Place::at(Name::Type)),
        reason: HouseReason::OfAnotherType {
            found: ask.kind,
            put: token.kind,
        },
        event: Some(at),
    })
}

/// The token is not valid.
pub fn blocked(ask: &Authorize) -> HouseCause
    ensures { result ≡ blocked ask.now }
{
    let reason = HouseReason::NotValid { uid: ask.uid };
    HouseCause::at(Place::at(Name::Uid), reason)
}
