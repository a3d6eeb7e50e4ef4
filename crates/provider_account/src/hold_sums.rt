//! The sum of the open holds of each provider and currency, with all operators and with each.

ghost use Rattle.std.specs.Prelude.{◌≡◌, ◌+◌, ◌-◌, ◌^◌, ◌<◌, ◌≤◌, true, if◌then◌else◌};
ghost use Rattle.indexmap.specs.IndexMap.{spare};
ghost use Rattle.plain_house.specs.Exposure.{holds_within};
ghost use Rattle.plain_house.specs.declared.scope.Scope.{Scope};
ghost use Rattle.provider_account.specs.Inner.HoldSums.{hold_sum_at, key_of};

use super::sums::SumsByKey;
use ocpi_types::{Currency, Party};
use plain_house::{Hold, Scope};
use std::hash::{Hash, Hasher};

/// A provider's holds in a currency, with one operator or with all.
#[derive(Clone, Copy, PartialEq, Eq)]
pub(crate) struct HoldSumKey {
    pub operator: Option<Party>,
    pub provider: Party,
    pub currency: Currency,
}

// An account is one provider's as a rule, so its letters are not hashed.
impl Hash for HoldSumKey {
    ghost use Rattle.std.specs.Prelude.{◌++◌, [], ◌∷◌};
    ghost use Rattle.provider_account.specs.Inner.HashInput.{operator_input};
    ghost use Rattle.provider_account.specs.Inner.HoldSums.{hashed_alike};

    ghost hash_input = { λ key. operator_input key.operator ++ (key.currency ∷ []) };

    ghost respects_eq = { hashed_alike };

    #[inline(always)]
    fn hash<H: Hasher>(&self, state: &mut H) {
        if let Some(operator) = &self.operator {
            operator.hash(state);
        }
        state.write(self.currency.as_str().as_bytes());
    }
}

fn key_of(operator: Option<Party>, hold: &Hold) -> HoldSumKey
    ensures { result ≡ key_of operator hold.now }
{
    HoldSumKey {
        operator,
        provider: hold.provider,
        currency: hold.currency,
    }
}

/// The sum of the open holds within the scope.
pub(crate) fn sum_within(sums: &SumsByKey<HoldSumKey>, scope: &Scope) -> u64
    ensures { result ≡ hold_sum_at sums.now scope.now }
{
    sums.get(&HoldSumKey {
        operator: scope.operator,
        provider: scope.provider,
        currency: scope.currency,
    })
}

/// Adds the hold where it counts.
pub(crate) fn add(sums: &mut SumsByKey<HoldSumKey>, hold: &Hold)
    requires room { 1 < spare sums.old.cells }
    requires fits { (scope : Scope) → hold_sum_at sums.old scope + hold.now.amount < 2 ^ 64 }
    ensures { (scope : Scope) → hold_sum_at sums.new scope ≡ (if holds_within scope hold.now then hold_sum_at sums.old scope + hold.now.amount else hold_sum_at sums.old scope) }
{
    let amount = hold.amount.get();
    sums.add(key_of(None, hold), amount);
    sums.add(key_of(Some(hold.operator), hold), amount);
}

/// Takes the hold off where it counts.
pub(crate) fn take_off(sums: &mut SumsByKey<HoldSumKey>, hold: &Hold)
    requires { (scope : Scope) → holds_within scope hold.now ≡ true → hold.now.amount ≤ hold_sum_at sums.old scope }
    ensures { (scope : Scope) → hold_sum_at sums.new scope ≡ (if holds_within scope hold.now then hold_sum_at sums.old scope - hold.now.amount else hold_sum_at sums.old scope) }
{
    let amount = hold.amount.get();
    sums.take(&key_of(None, hold), amount);
    sums.take(&key_of(Some(hold.operator), hold), amount);
}
