//! The columns of a command that the house refuses.

ghost use Rattle.std.specs.Prelude.{◌≡◌};
ghost use Rattle.line_causes.specs.HouseColumns.{house_against, house_found, house_words, limit_words, party_if, store_words};

use crate::value::Value;
use house_causes::HouseReason;
use ocpi_types::{Party, Store};

// Returns the words for a limit of a provider, or of a provider with one operator.
fn limit_words(pair: bool) -> &'static str
    ensures { result.now ≡ limit_words pair }
{
    if pair {
        "above the limit with the operator"
    } else {
        "above the provider's limit"
    }
}

fn store_words(store: Store) -> &'static str
    ensures { result.now ≡ store_words store }
{
    match store {
        Store::Cdrs => "limits.cdrs reached",
        Store::Tariffs => "limits.tariffs reached",
        Store::Account => "limits.entries reached",
        Store::Order => "limits.order reached",
        Store::Periods => "limits.periods reached",
    }
}

pub(crate) fn house_words(reason: &HouseReason) -> &'static str
    ensures { result.now ≡ house_words reason.now }
{
    match reason {
        HouseReason::StoredOtherwise => "stored with another one",
        HouseReason::RegisteredOtherwise => {
            "stored with another one; {} and no restrictions differ"
        }
        HouseReason::BookedOtherwise { .. } => "booked with another one",
        HouseReason::OfAnotherOperator { .. } => "of another operator",
        HouseReason::NotRegistered { .. } => "version that is not stored",
        HouseReason::NotPut { .. } => "token that is not put",
        HouseReason::OfAnotherType { .. } => "put as of another type",
        HouseReason::NotValid { .. } => "token that is not valid",
        HouseReason::NotCovered(over) => limit_words(over.pair),
        HouseReason::NeverGiven { .. } => "never given",
        HouseReason::GivenToAnother { .. } => "given to another operator",
        HouseReason::ReleasedAlready { .. } => "released already",
        HouseReason::UsedUp { .. } => "used up by a CDR",
        HouseReason::NoOriginal { .. } | HouseReason::NoCdr { .. } =>
            "id of no CDR of the operator",
        HouseReason::OfCredit { .. } => "id of a Credit CDR",
        HouseReason::CreditedAlready { .. } => "credited already",
        HouseReason::BeforeWindow { .. } => "of a period before the credit window",
        HouseReason::OtherProvider { .. } => "not the provider of the CDR",
        HouseReason::OtherCurrency { .. } => "not the currency of the CDR",
        HouseReason::AboveZero { .. } => "above 0",
        HouseReason::FarFromNegated { .. } => "farther from the negated amount than the tolerance",
        HouseReason::ClosedAlready { .. } => "closed already",
        HouseReason::NotCurrentYet { .. } => "not the current one yet",
        HouseReason::NotClosedYet { .. } => "not closed yet",
        HouseReason::SettledAlready { .. } => "settled already",
        HouseReason::Full { what, .. } => store_words(*what),
        HouseReason::AboveLimit { pair, .. } => limit_words(*pair),
    }
}

fn value_of_party(party: Option<Party>) -> Value
    ensures { result ≡ party_if party }
{
    match party {
        Some(party) => Value::Party(party),
        None => Value::Nothing,
    }
}

pub(crate) fn house_found(reason: &HouseReason) -> Value
    ensures { result ≡ house_found reason.now }
{
    match reason {
        HouseReason::StoredOtherwise
        | HouseReason::BookedOtherwise { .. }
        | HouseReason::RegisteredOtherwise => Value::Nothing,
        HouseReason::OfAnotherOperator { found, .. } | HouseReason::OtherProvider { found, .. } =>
            Value::Party(*found),
        HouseReason::NotRegistered { last_updated } => Value::Moment(*last_updated),
        HouseReason::NotPut { uid } | HouseReason::NotValid { uid } => Value::Reference(*uid),
        HouseReason::OfAnotherType { found, .. } => Value::Kind(*found),
        HouseReason::NotCovered(over) => Value::Amount(over.exposure),
        HouseReason::NeverGiven { reference }
        | HouseReason::GivenToAnother { reference, .. }
        | HouseReason::ReleasedAlready { reference }
        | HouseReason::UsedUp { reference, .. } => Value::Reference(*reference),
        HouseReason::NoOriginal { id }
        | HouseReason::OfCredit { id }
        | HouseReason::CreditedAlready { id, .. }
        | HouseReason::NoCdr { id } => Value::Id(*id),
        HouseReason::BeforeWindow { original, .. } => Value::Number(*original),
        HouseReason::OtherCurrency { found, .. } => Value::Currency(*found),
        HouseReason::AboveZero { cost } | HouseReason::FarFromNegated { cost, .. } =>
            Value::Decimal(*cost),
        HouseReason::ClosedAlready { period, .. }
        | HouseReason::NotCurrentYet { period, .. }
        | HouseReason::NotClosedYet { period, .. }
        | HouseReason::SettledAlready { period } => Value::Number(*period),
        HouseReason::Full { party, .. } => value_of_party(*party),
        HouseReason::AboveLimit { exposure, .. } => Value::Amount(*exposure),
    }
}

pub(crate) fn house_against(reason: &HouseReason) -> Value
    ensures { result ≡ house_against reason.now }
{
    match reason {
        HouseReason::StoredOtherwise
        | HouseReason::RegisteredOtherwise
        | HouseReason::NotRegistered { .. }
        | HouseReason::NotPut { .. }
        | HouseReason::NotValid { .. }
        | HouseReason::NeverGiven { .. }
        | HouseReason::ReleasedAlready { .. }
        | HouseReason::NoOriginal { .. }
        | HouseReason::OfCredit { .. }
        | HouseReason::AboveZero { .. }
        | HouseReason::SettledAlready { .. }
        | HouseReason::NoCdr { .. } => Value::Nothing,
        HouseReason::BookedOtherwise { amount } => Value::Amount(*amount),
        HouseReason::OfAnotherOperator { operator, .. }
        | HouseReason::GivenToAnother { operator, .. } => Value::Party(*operator),
        HouseReason::OfAnotherType { put, .. } => Value::Kind(*put),
        HouseReason::NotCovered(over) => Value::Amount(over.limit),
        HouseReason::UsedUp { cdr, .. } => Value::Id(*cdr),
        HouseReason::CreditedAlready { credit, .. } => Value::Id(*credit),
        HouseReason::BeforeWindow { current, .. }
        | HouseReason::ClosedAlready { current, .. }
        | HouseReason::NotCurrentYet { current, .. }
        | HouseReason::NotClosedYet { current, .. } => Value::Number(*current),
        HouseReason::OtherProvider { cdr, .. } => Value::Party(*cdr),
        HouseReason::OtherCurrency { cdr, .. } => Value::Currency(*cdr),
        HouseReason::FarFromNegated { negated, .. } => Value::Amount(*negated),
        HouseReason::Full { limit, .. } => Value::Number(*limit),
        HouseReason::AboveLimit { limit, .. } => Value::Amount(*limit),
    }
}
