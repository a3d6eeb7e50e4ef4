//! The first member in which two CDRs or two tariffs with the same key differ.

ghost use Rattle.std.specs.Prelude.{◌≡◌};
ghost use Rattle.ocpi_types.specs.ContentDifference.{difference_of_cdrs, difference_of_tariffs, first_difference, first_members, later_members};

use super::{Part, are_same, are_same_if_any};
use crate::cdr::Cdr;
use crate::tariff::Tariff;
use ocpi_json::name::Name;

fn first_difference(members: &[(Name, bool)]) -> Option<Name>
    ensures { result ≡ first_difference members.now }
{
    members
        .iter()
        .find(|member| !member.1)
        .map(|member| member.0)
}

fn first_difference_before_tariffs(one: &Cdr, other: &Cdr) -> Option<Name>
    ensures { result ≡ first_difference (first_members one.now other.now) }
{
    let (reference, another) = (&one.authorization_reference, &other.authorization_reference);
    first_difference(&[
        (
            Name::StartDateTime,
            one.start_date_time.is_same(&other.start_date_time),
        ),
        (
            Name::EndDateTime,
            one.end_date_time.is_same(&other.end_date_time),
        ),
        (Name::CdrToken, one.cdr_token.is_same(&other.cdr_token)),
        (
            Name::AuthMethod,
            one.auth_method.is_same(&other.auth_method),
        ),
        (
            Name::AuthorizationReference,
            are_same_if_any(reference, another),
        ),
        (Name::Currency, one.currency.is(&other.currency)),
    ])
}

fn first_difference_from_tariffs_on(one: &Cdr, other: &Cdr) -> Option<Name>
    ensures { result ≡ first_difference (later_members one.now other.now) }
{
    let (some, others) = (one.tariffs.as_slice(), other.tariffs.as_slice());
    let has_tariffs = are_same(some, others);
    let (some, others) = (
        one.charging_periods.as_slice(),
        other.charging_periods.as_slice(),
    );
    let has_periods = are_same(some, others);
    first_difference(&[
        (Name::Tariffs, has_tariffs),
        (Name::ChargingPeriods, has_periods),
        (Name::TotalCost, one.total_cost.is_same(&other.total_cost)),
        (
            Name::TotalEnergy,
            one.total_energy.is_same(&other.total_energy),
        ),
        (Name::TotalTime, one.total_time.is_same(&other.total_time)),
        (Name::Credit, one.is_credit() == other.is_credit()),
        (
            Name::CreditReferenceId,
            are_same_if_any(&one.credit, &other.credit),
        ),
        (
            Name::LastUpdated,
            one.last_updated.is_same(&other.last_updated),
        ),
    ])
}

/// Returns the first member, in the order of reading, in which two CDRs of one operator and id differ.
#[tactic(auto, using(crate::proofs::ContentDifferences::in_two_parts))]
pub fn difference_of_cdrs(one: &Cdr, other: &Cdr) -> Option<Name>
    ensures { result ≡ difference_of_cdrs one.now other.now }
{
    let first = first_difference_before_tariffs(one, other);
    first.or(first_difference_from_tariffs_on(one, other))
}

/// Returns the first member, in the order of reading, in which two tariffs of one operator, id and moment differ.
#[tactic(auto, unfolding(crate::specs::ContentDifference::difference_of_tariffs))]
pub fn difference_of_tariffs(one: &Tariff, other: &Tariff) -> Option<Name>
    ensures { result ≡ difference_of_tariffs one.now other.now }
{
    first_difference(&[
        (Name::Currency, one.currency.is(&other.currency)),
        (
            Name::MinPrice,
            are_same_if_any(&one.min_price, &other.min_price),
        ),
        (
            Name::MaxPrice,
            are_same_if_any(&one.max_price, &other.max_price),
        ),
        (
            Name::Elements,
            are_same(one.elements.as_slice(), other.elements.as_slice()),
        ),
    ])
}
