ghost use Rattle.std.specs.Prelude.{◌≡◌};
ghost use Rattle.ocpi_types.specs.Refusal.{store_name, refusal_name, refusal_number, refusal_status};

use exact_money::Amount;
use ocpi_json::name::Name;
use std::fmt;
use thiserror::Error;

/// What has reached its configured limit.
#[derive(Clone, Copy, Debug, PartialEq, Eq)]
pub enum Store {
    /// The CDRs of an operator.
    Cdrs,
    /// The tariff versions of an operator.
    Tariffs,
    /// The entries of a provider's account.
    Account,
    /// The entries of the order.
    Order,
    /// The closed periods.
    Periods,
}

impl Store {
    pub fn name(self) -> &'static str
        ensures { result.now ≡ store_name self }
    {
        match self {
            Store::Cdrs => "Cdrs",
            Store::Tariffs => "Tariffs",
            Store::Account => "Account",
            Store::Order => "Order",
            Store::Periods => "Periods",
        }
    }
}

/// Writes the name.
impl fmt::Display for Store {
    ghost use Rattle.std.specs.Prelude.{Some};
    ghost use Rattle.ocpi_types.specs.Refusal.{store_name};

    ghost output = { λ store. Some (store_name store) };

    fn fmt<W: fmt::Write>(&self, f: &mut fmt::Formatter<W>) -> fmt::Result {
        f.write_str(self.name())
    }
}

/// Why a request is refused.
///
/// Where several conditions hold, the refusal is the one with the least number, with two exceptions: `TooLate` is tested after
/// `AlreadyCredited` and before `CreditDiffers`, and `NoMemory` is the refusal wherever an allocation fails.
///
/// It is displayed as its name, with its values as an answer line has them after it: `Field volume`, `NotCurrent current 1`.
#[derive(Clone, Copy, Debug, PartialEq, Eq, Error)]
pub enum Refusal {
    /// The line is no JSON.
    Syntax,
    /// A member is missing, of a wrong kind or out of bounds.
    Field {
        name: Name,
    },
    /// A named operator, provider or party is not configured as such.
    UnknownParty,
    /// The platform may not ask for this.
    NotYours,
    /// The currency is not configured, or an embedded tariff has another one than its CDR.
    WrongCurrency,
    /// The CDR's moments are out of order.
    BadDates,
    /// A charging period's tariff is not among the CDR's tariffs.
    TariffNotGiven,
    /// A tariff has a restriction that is not rated.
    UnsupportedRestriction,
    /// The CDR has reservation time.
    Reservation,
    /// The CDR's total energy is not that of its charging periods.
    EnergyMismatch,
    /// The rated amount is above 10^12 ten-thousandths.
    AmountTooLarge,
    /// The declared cost is not the rated one.
    CostMismatch {
        rated: Amount,
    },
    /// A known CDR or tariff version with other content.
    Conflict,
    /// An embedded tariff is no stored version of the operator with the same content.
    TariffNotRegistered,
    /// The provider has no such token.
    UnknownToken,
    /// No open hold has this reference.
    UnknownHold,
    /// A Credit CDR's reference is no CDR of the operator.
    UnknownOriginal,
    /// A Credit CDR's reference is a Credit CDR.
    CreditOfCredit,
    /// The CDR is credited already.
    AlreadyCredited,
    /// A Credit CDR differs from its original.
    CreditDiffers,
    /// The period to close is not the current one.
    NotCurrent {
        current: u64,
    },
    /// The period is not closed yet.
    PeriodOpen,
    /// The period is settled already.
    AlreadySettled,
    /// The operator has no such CDR.
    UnknownCdr,
    /// A store has reached its limit.
    Full {
        what: Store,
    },
    /// A CDR would lead to this exposure, above this limit; `pair` says that it is the limit of one operator.
    OverLimit {
        exposure: Amount,
        limit: Amount,
        pair: bool,
    },
    /// Memory was refused.
    NoMemory,
    /// The credit window of the original's period is over.
    TooLate {
        original: u64,
        current: u64,
    },
}

impl Refusal {
    /// The name on an answer line.
    pub fn name(&self) -> &'static str
        ensures { result.now ≡ refusal_name self.now }
    {
        match self {
            Refusal::Syntax => "Syntax",
            Refusal::Field { .. } => "Field",
            Refusal::UnknownParty => "UnknownParty",
            Refusal::NotYours => "NotYours",
            Refusal::WrongCurrency => "WrongCurrency",
            Refusal::BadDates => "BadDates",
            Refusal::TariffNotGiven => "TariffNotGiven",
            Refusal::UnsupportedRestriction => "UnsupportedRestriction",
            Refusal::Reservation => "Reservation",
            Refusal::EnergyMismatch => "EnergyMismatch",
            Refusal::AmountTooLarge => "AmountTooLarge",
            Refusal::CostMismatch { .. } => "CostMismatch",
            Refusal::Conflict => "Conflict",
            Refusal::TariffNotRegistered => "TariffNotRegistered",
            Refusal::UnknownToken => "UnknownToken",
            Refusal::UnknownHold => "UnknownHold",
            Refusal::UnknownOriginal => "UnknownOriginal",
            Refusal::CreditOfCredit => "CreditOfCredit",
            Refusal::AlreadyCredited => "AlreadyCredited",
            Refusal::CreditDiffers => "CreditDiffers",
            Refusal::NotCurrent { .. } => "NotCurrent",
            Refusal::PeriodOpen => "PeriodOpen",
            Refusal::AlreadySettled => "AlreadySettled",
            Refusal::UnknownCdr => "UnknownCdr",
            Refusal::Full { .. } => "Full",
            Refusal::OverLimit { .. } => "OverLimit",
            Refusal::NoMemory => "NoMemory",
            Refusal::TooLate { .. } => "TooLate",
        }
    }

    /// The number on an answer line.
    pub fn number(&self) -> u64
        ensures { result ≡ refusal_number self.now }
    {
        match self {
            Refusal::Syntax => 1,
            Refusal::Field { .. } => 2,
            Refusal::UnknownParty => 3,
            Refusal::NotYours => 4,
            Refusal::WrongCurrency => 5,
            Refusal::BadDates => 6,
            Refusal::TariffNotGiven => 7,
            Refusal::UnsupportedRestriction => 8,
            Refusal::Reservation => 9,
            Refusal::EnergyMismatch => 10,
            Refusal::AmountTooLarge => 11,
            Refusal::CostMismatch { .. } => 12,
            Refusal::Conflict => 13,
            Refusal::TariffNotRegistered => 14,
            Refusal::UnknownToken => 15,
            Refusal::UnknownHold => 16,
            Refusal::UnknownOriginal => 17,
            Refusal::CreditOfCredit => 18,
            Refusal::AlreadyCredited => 19,
            Refusal::CreditDiffers => 20,
            Refusal::NotCurrent { .. } => 21,
            Refusal::PeriodOpen => 22,
            Refusal::AlreadySettled => 23,
            Refusal::UnknownCdr => 24,
            Refusal::Full { .. } => 25,
            Refusal::OverLimit { .. } => 26,
            Refusal::NoMemory => 27,
            Refusal::TooLate { .. } => 28,
        }
    }

    /// The status code of OCPI 2.2.1, section 'Status codes': 2001 for bad parameters, 2004 for an unknown token, 3000
    /// for the house's own want of room, 2000 for every other refusal.
    pub fn status(&self) -> u64
        ensures { result ≡ refusal_status self.now }
    {
        match self {
            Refusal::Syntax | Refusal::Field { .. } => 2001,
            Refusal::UnknownToken => 2004,
            Refusal::Full { .. } | Refusal::NoMemory => 3000,
            _ => 2000,
        }
    }
}

/// Writes the name, and then the values.
impl fmt::Display for Refusal {
    ghost use Rattle.std.specs.Prelude.{Some};
    ghost use Rattle.ocpi_types.specs.Refusal.{refusal_text};

    ghost output = { λ refusal. Some (refusal_text refusal) };

    fn fmt<W: fmt::Write>(&self, f: &mut fmt::Formatter<W>) -> fmt::Result {
        match self {
            Refusal::Field { name } => write!(f, "Field {name}"),
            Refusal::CostMismatch { rated } => write!(f, "CostMismatch rated {rated}"),
            Refusal::NotCurrent { current } => write!(f, "NotCurrent current {current}"),
            Refusal::Full { what } => write!(f, "Full {what}"),
            Refusal::OverLimit {
                exposure,
                limit,
                pair,
            } => {
                let scope = if *pair { " pair" } else { "" };
                write!(f, "OverLimit exposure {exposure} limit {limit}{scope}")
            }
            Refusal::TooLate { original, current } => {
                write!(f, "TooLate original {original} current {current}")
            }
            _ => f.write_str(self.name()),
        }
    }
}
