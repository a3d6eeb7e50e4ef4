//! Why a house refuses a command.

ghost use Rattle.std.specs.Prelude.{◌≡◌, Some};
ghost use Rattle.ocpi_types.specs.declared.refusal.Refusal.TheVariants as refusal;
ghost use Rattle.house_causes.specs.HouseCause.{cause_at, refusal_by};

use cdr_checks::Place;
use exact_money::{Amount, Millionths};
use jiff::Timestamp;
use ocpi_json::ci_text::CiText;
use ocpi_types::{Currency, Party, Refusal, Store, TokenKind};
use plain_house::OverLimit;

/// What was found, and what it was compared with. Amounts are in ten-thousandths of the currency unit, declared costs in millionths.
#[derive(Clone, Copy)]
pub enum HouseReason {
    /// The tariff's version is stored with other content.
    StoredOtherwise,
    /// The CDR's id is booked with other content, at this amount.
    BookedOtherwise {
        amount: Amount,
    },
    /// A tariff of the CDR is of another operator than the CDR.
    OfAnotherOperator {
        found: Party,
        operator: Party,
    },
    /// The version of a tariff of the CDR is stored with other content.
    RegisteredOtherwise,
    /// No version of this moment is stored of a tariff of the CDR.
    NotRegistered {
        last_updated: Timestamp,
    },
    /// No token of this uid is put.
    NotPut {
        uid: CiText<36>,
    },
    /// The token is put as of another type.
    OfAnotherType {
        found: TokenKind,
        put: TokenKind,
    },
    /// The token is not valid, so the answer is BLOCKED.
    NotValid {
        uid: CiText<36>,
    },
    /// With the hold an exposure would be above its limit, so the answer is NO_CREDIT.
    NotCovered(OverLimit),
    /// The provider never got a hold of this reference.
    NeverGiven {
        reference: CiText<36>,
    },
    /// The hold is one of another operator.
    GivenToAnother {
        reference: CiText<36>,
        operator: Party,
    },
    /// The hold was given back before.
    ReleasedAlready {
        reference: CiText<36>,
    },
    /// A CDR used the hold up.
    UsedUp {
        reference: CiText<36>,
        cdr: CiText<39>,
    },
    /// The operator has no CDR of the id that the Credit CDR names.
    NoOriginal {
        id: CiText<39>,
    },
    /// The Credit CDR names a Credit CDR.
    OfCredit {
        id: CiText<39>,
    },
    /// The named CDR is credited, by this Credit CDR.
    CreditedAlready {
        id: CiText<39>,
        credit: CiText<39>,
    },
    /// The named CDR's period is before the credit window of the current one.
    BeforeWindow {
        original: u64,
        current: u64,
    },
    /// The Credit CDR has another provider than the named CDR.
    OtherProvider {
        found: Party,
        cdr: Party,
    },
    /// The Credit CDR has another currency than the named CDR.
    OtherCurrency {
        found: Currency,
        cdr: Currency,
    },
    /// The Credit CDR's cost is above 0.
    AboveZero {
        cost: Millionths,
    },
    /// The Credit CDR's cost is farther from the named CDR's negated amount than the tolerance.
    FarFromNegated {
        cost: Millionths,
        negated: Amount,
    },
    /// The period to close is closed.
    ClosedAlready {
        period: u64,
        current: u64,
    },
    /// The period to close comes after the current one.
    NotCurrentYet {
        period: u64,
        current: u64,
    },
    /// The period to settle or to state is not closed.
    NotClosedYet {
        period: u64,
        current: u64,
    },
    /// The period is settled.
    SettledAlready {
        period: u64,
    },
    /// The operator has no CDR of this id.
    NoCdr {
        id: CiText<39>,
    },
    /// A store of this party, if it is one's, has reached its limit.
    Full {
        what: Store,
        party: Option<Party>,
        limit: u64,
    },
    /// With the CDR an exposure would be above its limit. `pair` is true if it is the limit of one operator.
    AboveLimit {
        exposure: Amount,
        limit: Amount,
        pair: bool,
    },
}

fn too_late_refusal(original: u64, current: u64) -> Refusal
    ensures { result ≡ refusal.TooLate original current }
{
    Refusal::TooLate { original, current }
}

fn over_limit_refusal(exposure: Amount, limit: Amount, pair: bool) -> Refusal
    ensures { result ≡ refusal.OverLimit exposure limit pair }
{
    Refusal::OverLimit {
        exposure,
        limit,
        pair,
    }
}

impl HouseReason {
    /// Returns the refusal; none for the answers BLOCKED and NO_CREDIT.
    pub fn refusal(&self) -> Option<Refusal>
        ensures { result ≡ refusal_by self.now }
    {
        let refusal = match self {
            HouseReason::StoredOtherwise | HouseReason::BookedOtherwise { .. } => Refusal::Conflict,
            HouseReason::OfAnotherOperator { .. }
            | HouseReason::RegisteredOtherwise
            | HouseReason::NotRegistered { .. } => Refusal::TariffNotRegistered,
            HouseReason::NotPut { .. } | HouseReason::OfAnotherType { .. } => Refusal::UnknownToken,
            HouseReason::NotValid { .. } | HouseReason::NotCovered(_) => return None,
            HouseReason::NeverGiven { .. }
            | HouseReason::GivenToAnother { .. }
            | HouseReason::ReleasedAlready { .. }
            | HouseReason::UsedUp { .. } => Refusal::UnknownHold,
            HouseReason::NoOriginal { .. } => Refusal::UnknownOriginal,
            HouseReason::OfCredit { .. } => Refusal::CreditOfCredit,
            HouseReason::CreditedAlready { .. } => Refusal::AlreadyCredited,
            HouseReason::BeforeWindow { original, current } => too_late_refusal(
                *original, *current,
            ),
            HouseReason::OtherProvider { .. }
            | HouseReason::OtherCurrency { .. }
            | HouseReason::AboveZero { .. }
            | HouseReason::FarFromNegated { .. } => Refusal::CreditDiffers,
            HouseReason::ClosedAlready { current, .. }
            | HouseReason::NotCurrentYet { current, .. } => Refusal::NotCurrent {
                current: *current,
            },
            HouseReason::NotClosedYet { .. } => Refusal::PeriodOpen,
            HouseReason::SettledAlready { .. } => Refusal::AlreadySettled,
            HouseReason::NoCdr { .. } => Refusal::UnknownCdr,
            HouseReason::Full { what, .. } => Refusal::Full { what: *what },
            HouseReason::AboveLimit {
                exposure,
                limit,
                pair,
            } => over_limit_refusal(*exposure, *limit, *pair),
        };
        Some(refusal)
    }
}

/// Why a house refuses a command.
#[derive(Clone, Copy)]
pub struct HouseCause {
    /// The member of the request that the house does not take; none if a store is full.
    pub place: Option<Place>,
    pub reason: HouseReason,
    /// The number, from 0, of the event that contradicts the request; none if there is none.
    pub event: Option<usize>,
}

impl HouseCause {
    /// A cause at a place, by no event.
    pub(crate) fn at(place: Place, reason: HouseReason) -> HouseCause
        ensures { result ≡ cause_at place reason }
    {
        HouseCause {
            place: Some(place),
            reason,
            event: None,
        }
    }
}
