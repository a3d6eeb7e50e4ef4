//! Why a Credit CDR is refused.

ghost use Rattle.std.specs.Prelude.{◌≡◌, option_map};
ghost use Rattle.plain_house.specs.Booked.{shown_booked};
ghost use Rattle.house_causes.specs.Credits.{cdr_of, credit_differs, credited_already, difference_cause, no_original, of_credit, reference_place, too_late};

use crate::house_cause::{HouseCause, HouseReason};
use cdr_checks::Place;
use known_events::KnownEvents;
use ocpi_json::ci_text::CiText;
use ocpi_json::name::Name;
use ocpi_types::{Cdr, Config};
use plain_house::{BookedCdr, CreditDifference, Event, credit_difference};

// Where a Credit CDR names the CDR that it credits.
fn reference_place() -> Place
    ensures { result ≡ reference_place }
{
    Place::inside(Name::Cdr, Name::CreditReferenceId)
}

/// The operator has no CDR of the id that the Credit CDR names.
pub fn no_original(credit: &Cdr) -> Option<HouseCause>
    ensures { result ≡ no_original credit.now }
{
    let reason = HouseReason::NoOriginal { id: credit.credit? };
    Some(HouseCause::at(reference_place(), reason))
}

/// The Credit CDR names a Credit CDR.
pub fn of_credit(events: &KnownEvents, credit: &Cdr) -> Option<HouseCause>
    ensures { result ≡ of_credit events.now credit.now }
{
    let id = credit.credit?;
    let event = events.booked_at(&credit.operator, &id);
    Some(HouseCause {
        place: Some(reference_place()),
        reason: HouseReason::OfCredit { id },
        event,
    })
}

// The id of the CDR or Credit CDR that the event books.
fn id_of(event: &Event) -> Option<CiText<39>>
    ensures { result ≡ option_map (λ cdr. cdr.id) (cdr_of event.now) }
{
    match event {
        Event::Cdr { cdr, .. } => Some(cdr.id),
        Event::Credit { cdr, .. } => Some(cdr.id),
        _ => None,
    }
}

/// The CDR that the Credit CDR names is credited.
#[tactic(auto, unfolding(crate::specs::Credits::credited_already))]
pub fn credited_already(events: &KnownEvents, credit: &Cdr) -> Option<HouseCause>
    ensures { result ≡ credited_already events.now credit.now }
{
    let id = credit.credit?;
    let at = events.credited_at(&credit.operator, &id)?;
    let earlier = id_of(events.get(at)?)?;
    Some(HouseCause {
        place: Some(reference_place()),
        reason: HouseReason::CreditedAlready {
            id,
            credit: earlier,
        },
        event: Some(at),
    })
}

/// The period of the named CDR is before the credit window of the current one.
pub fn too_late(original: u64, current: u64) -> HouseCause
    ensures { result ≡ too_late original current }
{
    let reason = HouseReason::BeforeWindow { original, current };
    HouseCause::at(reference_place(), reason)
}

// In what a Credit CDR differs from what its original asks for.
fn difference_cause(
    credit: &Cdr,
    original: &BookedCdr<'_>,
    difference: CreditDifference,
) -> HouseCause
    ensures { result ≡ difference_cause credit.now (shown_booked original.now) difference }
{
    let cost = credit.total_cost;
    match difference {
        CreditDifference::Provider => HouseCause::at(
            Place::inside(Name::Cdr, Name::CdrToken),
            HouseReason::OtherProvider {
                found: credit.cdr_token.provider,
                cdr: original.cdr.cdr_token.provider,
            },
        ),
        CreditDifference::Currency => HouseCause::at(
            Place::inside(Name::Cdr, Name::Currency),
            HouseReason::OtherCurrency {
                found: credit.currency,
                cdr: original.cdr.currency,
            },
        ),
        CreditDifference::AboveZero => {
            HouseCause::at(Place::declared_cost(), HouseReason::AboveZero { cost })
        }
        CreditDifference::Cost => HouseCause::at(
            Place::declared_cost(),
            HouseReason::FarFromNegated {
                cost,
                negated: original.amount.negated().amount(),
            },
        ),
    }
}

/// The Credit CDR differs from what its original asks for.
#[tactic(auto, unfolding(crate::specs::Credits::credit_differs))]
pub fn credit_differs(config: &Config, events: &KnownEvents, credit: &Cdr) -> Option<HouseCause>
    ensures { result ≡ credit_differs config.now events.now credit.now }
{
    let id = credit.credit?;
    let Some(original) = events.booked_as(&credit.operator, &id) else {
        return None;
    };
    let difference = credit_difference(config, credit, &original)?;
    Some(HouseCause {
        event: events.booked_at(&credit.operator, &id),
        ..difference_cause(credit, &original, difference)
    })
}
