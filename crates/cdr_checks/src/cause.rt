//! Why a request is not admitted.

ghost use Rattle.std.specs.Prelude.{◌≡◌};
ghost use Rattle.cdr_checks.specs.Cause.{refusal_by, refusal_of};

use crate::place::Place;
use exact_money::{Amount, Millionths};
use jiff::Timestamp;
use ocpi_json::ci_text::CiText;
use ocpi_types::{Currency, Party, Refusal};

/// What was found, and what it was compared with.
#[derive(Clone, Copy)]
pub enum Reason {
    /// The party is configured as no operator.
    NoOperator(Party),
    /// The party is configured as no provider.
    NoProvider(Party),
    /// The party is neither an operator nor a provider.
    NoParty(Party),
    /// No platform of this name is configured.
    UnknownPlatform(CiText<36>),
    /// Only a hub may send the request, and the platform is no hub.
    NoHub(CiText<36>),
    /// The platform does not act for the party.
    ActsNotFor {
        platform: CiText<36>,
        party: Party,
    },
    /// The currency is not configured.
    UnknownCurrency(Currency),
    /// A tariff of the CDR has another currency.
    OtherCurrency {
        found: Currency,
        cdr: Currency,
    },
    /// The moment is before the preceding one.
    BeforePreceding {
        found: Timestamp,
        preceding: Timestamp,
    },
    /// The CDR has no tariff of this id.
    TariffNotGiven(CiText<36>),
    /// Bounds on current and power are not supported.
    NotSupported,
    /// The volume is a time of reservation.
    Reserved(Millionths),
    /// The total energy is not the sum of the volumes of energy, both in millionths of a kWh.
    OtherEnergy {
        found: Millionths,
        sum: u128,
    },
    /// The CDR is rated above the largest amount, which is this.
    AmountTooLarge {
        most: Amount,
    },
    /// The declared cost is farther from the rated one than the tolerance.
    FarFromRated {
        declared: Millionths,
        rated: Amount,
    },
}

impl Reason {
    /// The refusal that it is.
    pub fn refusal(&self) -> Refusal
        ensures { result ≡ refusal_by self.now }
    {
        match self {
            Reason::NoOperator(_) | Reason::NoProvider(_) | Reason::NoParty(_) => {
                Refusal::UnknownParty
            }
            Reason::UnknownPlatform(_) | Reason::NoHub(_) | Reason::ActsNotFor { .. } => {
                Refusal::NotYours
            }
            Reason::UnknownCurrency(_) | Reason::OtherCurrency { .. } => Refusal::WrongCurrency,
            Reason::BeforePreceding { .. } => Refusal::BadDates,
            Reason::TariffNotGiven(_) => Refusal::TariffNotGiven,
            Reason::NotSupported => Refusal::UnsupportedRestriction,
            Reason::Reserved(_) => Refusal::Reservation,
            Reason::OtherEnergy { .. } => Refusal::EnergyMismatch,
            Reason::AmountTooLarge { .. } => Refusal::AmountTooLarge,
            Reason::FarFromRated { rated, .. } => Refusal::CostMismatch { rated: *rated },
        }
    }
}

/// Why a request is not admitted: the place of the first test that fails, and what was found there.
#[derive(Clone, Copy)]
pub struct Cause {
    pub place: Place,
    pub reason: Reason,
}

impl Cause {
    /// The refusal of the request.
    pub fn refusal(&self) -> Refusal
        ensures { result ≡ refusal_of self.now }
    {
        self.reason.refusal()
    }
}
