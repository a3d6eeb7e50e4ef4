//! What is owed, summed by operator or all of them, provider, currency and period or all of them.

ghost use Rattle.std.specs.Prelude.{◌≡◌, ◌+◌, ◌<◌, ◌≤◌, ◌^◌, Some, None, true, OnOk};
ghost use Rattle.indexmap.specs.IndexMap.{spare};
ghost use Rattle.provider_account.specs.Inner.DebtKeys.{counted, covers};
ghost use Rattle.provider_account.specs.Inner.Owed.{amount_of, in_period, part_of};

use super::debt_keys::{DebtKey, PeriodKey};
use super::sums::SumsByKey;
use ocpi_types::Party;
use plain_house::Charge;
use std::alloc::{AllocError, Global};

/// What is owed, in ten-thousandths; what is missing is 0.
#[derive(Drop)]
pub(crate) struct Owed {
    pub amounts: SumsByKey<DebtKey>,
}

impl Owed {
    pub(crate) fn new(alloc: Global) -> Owed
        ensures { (key : DebtKey) → amount_of result.amounts key ≡ 0 }
    {
        Owed {
            amounts: SumsByKey::new(alloc),
        }
    }

    pub(crate) fn amount(&self, key: &DebtKey) -> u64
        ensures { result ≡ amount_of self.now.amounts key.now }
    {
        self.amounts.get(key)
    }

    pub(crate) fn add(&mut self, key: &DebtKey, amount: u64)
        requires room { 0 < spare self.old.amounts.cells }
        requires fits { amount_of self.old.amounts key.now + amount < 2 ^ 64 }
        ensures amounts { (other : DebtKey) → amount_of self.new.amounts other ≡ amount_of self.old.amounts other + part_of key.now other amount }
        ensures room { spare self.old.amounts.cells ≤ spare self.new.amounts.cells + 1 }
    {
        let _operator = key.operator;
        self.amounts.add(*key, amount);
    }

    pub(crate) fn take(&mut self, key: &DebtKey, amount: u64)
        requires { amount ≤ amount_of self.old.amounts key.now }
        ensures amounts { (other : DebtKey) → amount_of self.new.amounts other + part_of key.now other amount ≡ amount_of self.old.amounts other }
        ensures room { spare self.old.amounts.cells ≤ spare self.new.amounts.cells }
    {
        self.amounts.take(key, amount);
    }

    /// Room for one more charge.
    pub(crate) fn reserve(&mut self) -> Result<(), AllocError>
        ensures kept { (key : DebtKey) → amount_of self.new.amounts key ≡ amount_of self.old.amounts key }
        ensures ok { OnOk result (4 ≤ spare self.new.amounts.cells) }
        ensures room { spare self.old.amounts.cells ≤ spare self.new.amounts.cells }
    {
        self.amounts.reserve(4)
    }

    /// The charge is owed.
    pub(crate) fn add_charge(&mut self, charge: &Charge)
        requires room { 4 ≤ spare self.old.amounts.cells }
        requires fits { (key : DebtKey) → amount_of self.old.amounts key ≤ 10 ^ 15 }
        ensures { (key : DebtKey) → amount_of self.new.amounts key ≡ amount_of self.old.amounts key + counted charge.now key }
    {
        let cost = charge.cost.get();
        self.add(&DebtKey::of(charge, None, None), cost);
        self.add(&DebtKey::of(charge, None, Some(charge.operator)), cost);
        self.add(&DebtKey::of(charge, Some(charge.period), None), cost);
        self.add(
            &DebtKey::of(charge, Some(charge.period), Some(charge.operator)),
            cost,
        );
    }

    /// The charge is no longer owed.
    pub(crate) fn take_charge(&mut self, charge: &Charge)
        requires { (key : DebtKey) → covers key charge.now ≡ true → charge.now.cost ≤ amount_of self.old.amounts key }
        ensures { (key : DebtKey) → amount_of self.new.amounts key + counted charge.now key ≡ amount_of self.old.amounts key }
    {
        let cost = charge.cost.get();
        self.take(&DebtKey::of(charge, None, None), cost);
        self.take(&DebtKey::of(charge, None, Some(charge.operator)), cost);
        self.take(&DebtKey::of(charge, Some(charge.period), None), cost);
        self.take(
            &DebtKey::of(charge, Some(charge.period), Some(charge.operator)),
            cost,
        );
    }

    /// Nothing is owed any longer in the period, with an operator or with all.
    pub(crate) fn end_period(&mut self, period: &PeriodKey, operator: &Option<Party>)
        requires { amount_of self.old.amounts (in_period period.now (Some period.now.period) operator.now)
            ≤ amount_of self.old.amounts (in_period period.now None operator.now) }
        ensures { let ended = amount_of self.old.amounts (in_period period.now (Some period.now.period) operator.now) in
            (key : DebtKey) → amount_of self.new.amounts key + part_of (in_period period.now None operator.now) key ended
            + part_of (in_period period.now (Some period.now.period) operator.now) key ended ≡ amount_of self.old.amounts key }
    {
        let of_period = period.debts(Some(period.period), operator);
        let ended = self.amount(&of_period);
        if ended > 0 {
            self.take(&period.debts(None, operator), ended);
            self.take(&of_period, ended);
        }
    }
}
