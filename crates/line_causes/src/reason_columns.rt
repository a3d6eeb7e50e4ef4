//! The columns of a request that is not admitted.

ghost use Rattle.std.specs.Prelude.{◌≡◌};
ghost use Rattle.line_causes.specs.ReasonColumns.{reason_against, reason_found, reason_words};

use crate::value::Value;
use cdr_checks::Reason;

pub(crate) fn reason_words(reason: &Reason) -> &'static str
    ensures { result.now ≡ reason_words reason.now }
{
    match reason {
        Reason::NoOperator(_) => "configured as no operator",
        Reason::NoProvider(_) => "configured as no provider",
        Reason::NoParty(_) | Reason::UnknownPlatform(_) | Reason::UnknownCurrency(_) => {
            "not configured"
        }
        Reason::NoHub(_) => "no hub",
        Reason::ActsNotFor { .. } => "does not act for the party",
        Reason::OtherCurrency { .. } => "not the currency of the CDR",
        Reason::BeforePreceding { .. } => "before the moment in front of it",
        Reason::TariffNotGiven(_) => "id of no tariff of the CDR",
        Reason::NotSupported => "bounds on current and power are not supported",
        Reason::Reserved(_) => "time of reservation",
        Reason::OtherEnergy { .. } => "not the sum of ENERGY",
        Reason::AmountTooLarge { .. } => "rated above the largest amount",
        Reason::FarFromRated { .. } => "farther from the rated cost than the tolerance",
    }
}

pub(crate) fn reason_found(reason: &Reason) -> Value
    ensures { result ≡ reason_found reason.now }
{
    match reason {
        Reason::NoOperator(party) | Reason::NoProvider(party) | Reason::NoParty(party) =>
            Value::Party(*party),
        Reason::UnknownPlatform(platform)
        | Reason::NoHub(platform)
        | Reason::ActsNotFor { platform, .. } => Value::Reference(*platform),
        Reason::UnknownCurrency(currency) => Value::Currency(*currency),
        Reason::OtherCurrency { found, .. } => Value::Currency(*found),
        Reason::BeforePreceding { found, .. } => Value::Moment(*found),
        Reason::TariffNotGiven(id) => Value::Reference(*id),
        Reason::NotSupported | Reason::AmountTooLarge { .. } => Value::Nothing,
        Reason::Reserved(volume) => Value::Decimal(*volume),
        Reason::OtherEnergy { found, .. } => Value::Decimal(*found),
        Reason::FarFromRated { declared, .. } => Value::Decimal(*declared),
    }
}

pub(crate) fn reason_against(reason: &Reason) -> Value
    ensures { result ≡ reason_against reason.now }
{
    match reason {
        Reason::NoOperator(_)
        | Reason::NoProvider(_)
        | Reason::NoParty(_)
        | Reason::UnknownPlatform(_)
        | Reason::NoHub(_)
        | Reason::UnknownCurrency(_)
        | Reason::TariffNotGiven(_)
        | Reason::NotSupported
        | Reason::Reserved(_) => Value::Nothing,
        Reason::ActsNotFor { party, .. } => Value::Party(*party),
        Reason::OtherCurrency { cdr, .. } => Value::Currency(*cdr),
        Reason::BeforePreceding { preceding, .. } => Value::Moment(*preceding),
        Reason::OtherEnergy { sum, .. } => Value::Energy(*sum),
        Reason::AmountTooLarge { most } => Value::Amount(*most),
        Reason::FarFromRated { rated, .. } => Value::Amount(*rated),
    }
}
