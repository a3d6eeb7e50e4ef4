//! Why there is no answer.

ghost use Rattle.std.specs.Prelude.{◌≡◌};
ghost use Rattle.input_reports.specs.declared.rating_fault.RatingFault.TheVariants.{NoMemory};

use ocpi_types::Refusal;
use std::alloc::AllocError;

/// Why a text has no answer.
#[derive(Clone, Copy)]
pub enum RatingFault {
    /// What stands before the first space of a record is no amount.
    NoAmount,
    /// The text is no CDR, or its session has no amount.
    Refused { refusal: Refusal },
    /// It is a Credit CDR, which is not rated.
    CreditCdr,
    /// Memory was refused.
    NoMemory,
}

impl From<AllocError> for RatingFault {
    ghost from_gives = { λ _ fault. fault ≡ NoMemory };

    fn from(_error: AllocError) -> Self {
        RatingFault::NoMemory
    }
}

pub fn refused(refusal: Refusal) -> RatingFault
    ensures { result ≡ RatingFault.Refused refusal }
{
    RatingFault::Refused { refusal }
}

impl RatingFault {
    /// Its two words: what it is, and of which member.
    pub fn words(&self) -> (&'static str, &'static str) {
        match self {
            RatingFault::NoAmount => ("no amount", ""),
            RatingFault::Refused {
                refusal: Refusal::Field { name },
            } => ("Field ", name.key()),
            RatingFault::Refused { refusal } => (refusal.name(), ""),
            RatingFault::CreditCdr => ("Credit CDR", ""),
            RatingFault::NoMemory => ("no memory", ""),
        }
    }
}
