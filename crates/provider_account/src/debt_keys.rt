//! By what debts are found.

ghost use Rattle.std.specs.Prelude.{◌≡◌};
ghost use Rattle.provider_account.specs.Inner.DebtKeys.{cdr_of, ended_by, key_of, period_of};
ghost use Rattle.provider_account.specs.Inner.Owed.{in_period};

use cdr_checks::Settlement;
use ocpi_json::ci_text::CiText;
use ocpi_types::{Currency, Party};
use plain_house::Charge;
use std::hash::{Hash, Hasher};

/// A CDR of an operator.
#[derive(Clone, Copy, PartialEq, Eq, Hash)]
pub(crate) struct CdrKey {
    pub operator: Party,
    pub cdr: CiText<39>,
}

impl CdrKey {
    pub(crate) fn of(charge: &Charge) -> CdrKey
        ensures { result ≡ cdr_of charge.now }
    {
        CdrKey {
            operator: charge.operator,
            cdr: charge.cdr,
        }
    }
}

/// One of the charges of a CDR, by how many came before it.
#[derive(Clone, Copy, PartialEq, Eq, Hash)]
pub(crate) struct ChargeKey {
    pub nth: usize,
    pub cdr: CdrKey,
}

/// A provider's period in a currency.
#[derive(Clone, Copy, PartialEq, Eq)]
pub(crate) struct PeriodKey {
    pub period: u64,
    pub provider: Party,
    pub currency: Currency,
}

// An account is one provider's as a rule, so its letters are not hashed.
impl Hash for PeriodKey {
    ghost use Rattle.std.specs.Prelude.{[], ◌∷◌};
    ghost use Rattle.std.specs.Hash as fed;
    ghost use Rattle.provider_account.specs.Inner.DebtKeys.{period_hashed_alike};

    ghost hash_input = { λ key. fed.le_bytes 8 key.period ∷ key.currency ∷ [] };

    ghost respects_eq = { period_hashed_alike };

    #[inline(always)]
    fn hash<H: Hasher>(&self, state: &mut H) {
        self.period.hash(state);
        state.write(self.currency.as_str().as_bytes());
    }
}

impl PeriodKey {
    pub(crate) fn of(charge: &Charge) -> PeriodKey
        ensures { result ≡ period_of charge.now }
    {
        PeriodKey {
            period: charge.period,
            provider: charge.provider,
            currency: charge.currency,
        }
    }

    pub(crate) fn ended_by(settlement: &Settlement) -> PeriodKey
        ensures { result ≡ ended_by settlement.now }
    {
        PeriodKey {
            period: settlement.period,
            provider: settlement.provider,
            currency: settlement.currency,
        }
    }

    /// The provider's debts in that currency.
    pub(crate) fn debts(&self, period: Option<u64>, operator: &Option<Party>) -> DebtKey
        ensures { result ≡ in_period self.now period operator.now }
    {
        DebtKey {
            period,
            operator: *operator,
            provider: self.provider,
            currency: self.currency,
        }
    }
}

/// Of which period and with which operator debts are meant, none of these meaning all of them.
#[derive(Clone, Copy, PartialEq, Eq)]
pub(crate) struct DebtKey {
    pub period: Option<u64>,
    pub operator: Option<Party>,
    pub provider: Party,
    pub currency: Currency,
}

// An account is one provider's as a rule, so its letters are not hashed.
impl Hash for DebtKey {
    ghost use Rattle.std.specs.Prelude.{◌++◌, [], ◌∷◌};
    ghost use Rattle.provider_account.specs.Inner.DebtKeys.{debt_hashed_alike, period_input};
    ghost use Rattle.provider_account.specs.Inner.HashInput.{operator_input};

    ghost hash_input = { λ key. period_input key.period ++ (operator_input key.operator ++ (key.currency ∷ [])) };

    ghost respects_eq = { debt_hashed_alike };

    #[inline(always)]
    fn hash<H: Hasher>(&self, state: &mut H) {
        if let Some(period) = &self.period {
            period.hash(state);
        }
        if let Some(operator) = &self.operator {
            operator.hash(state);
        }
        state.write(self.currency.as_str().as_bytes());
    }
}

impl DebtKey {
    /// One of the keys at which a charge counts.
    pub(crate) fn of(charge: &Charge, period: Option<u64>, operator: Option<Party>) -> DebtKey
        ensures { result ≡ key_of charge.now period operator }
    {
        DebtKey {
            period,
            operator,
            provider: charge.provider,
            currency: charge.currency,
        }
    }
}
