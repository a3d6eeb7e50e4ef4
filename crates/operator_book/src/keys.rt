//! By what entries are found.

use jiff::Timestamp;
use ocpi_json::ci_text::CiText;
use ocpi_types::{Currency, Party};
use std::hash::{Hash, Hasher};

/// The operator and the id of a CDR.
#[derive(Clone, Copy, PartialEq, Eq, Hash)]
pub struct CdrKey {
    pub operator: Party,
    pub id: CiText<39>,
}

/// The operator and the id of a tariff, and the moment of its version.
#[derive(Clone, Copy, PartialEq, Eq, Hash)]
pub struct VersionKey {
    pub operator: Party,
    pub id: CiText<36>,
    pub last_updated: Timestamp,
}

/// Who owes whom, in which currency, of which period.
#[derive(Clone, Copy, PartialEq, Eq)]
pub struct SumKey {
    pub operator: Party,
    pub provider: Party,
    pub currency: Currency,
    pub period: u64,
}

// A book is one operator's as a rule, so its letters are not hashed.
impl Hash for SumKey {
    ghost use Rattle.operator_book.specs.Inner.HashInput.{hashed_alike, sum_input};

    ghost hash_input = { sum_input };

    ghost respects_eq = { hashed_alike };

    #[inline(always)]
    fn hash<H: Hasher>(&self, state: &mut H) {
        self.provider.hash(state);
        state.write(self.currency.as_str().as_bytes());
        self.period.hash(state);
    }
}
