//! What providers owe by the entries of an account.

ghost use Rattle.std.specs.Prelude.{◌≡◌, ◌+◌, ◌≤◌, ◌^◌, [], ◌∷◌, ◌++◌, List, OnOk};
ghost use Rattle.plain_house.specs.declared.entry.AccountEntry.TheVariants as account;
ghost use Rattle.plain_house.specs.Exposure.{debts_of};
ghost use Rattle.plain_house.specs.Settlements.{is_settled, settled_debt};
ghost use Rattle.provider_account.specs.Inner.Charged.{KnowsPlaces};
ghost use Rattle.provider_account.specs.Inner.DebtKeys.{owed_at};
ghost use Rattle.provider_account.specs.Inner.Debts.{AreBounded, AreOperators, HasRoomForDebts, KnowsDebts, KnowsOwed, all_periods, owed_for, still_counted};
ghost use Rattle.provider_account.specs.Inner.Ended.{KnowsEnded};
ghost use Rattle.indexmap.specs.IndexMap.{spare};
ghost use Rattle.provider_account.specs.Inner.Owed.{amount_of};

use super::charged::ChargePlaces;
use super::debt_keys::{CdrKey, DebtKey, PeriodKey};
use super::ended::Ended;
use super::owed::Owed;
use cdr_checks::Settlement;
use indexmap::IndexSet;
use ocpi_types::Party;
use plain_house::{AccountEntry, Charge, Credit, Scope};
use std::alloc::{AllocError, Global};

fn add_owed(owed: &mut Owed, ended: &Ended, charge: &Charge)
    requires room { 4 ≤ spare owed.old.amounts.cells }
    requires fits { (key : DebtKey) → amount_of owed.old.amounts key ≤ 10 ^ 15 }
    ensures { (key : DebtKey) → amount_of owed.new.amounts key ≡ amount_of owed.old.amounts key + still_counted ended.now charge.now key }
{
    if !ended.has_ended(charge) {
        owed.add_charge(charge);
    }
}

fn take_owed(owed: &mut Owed, ended: &Ended, charge: &Charge)
    requires { (key : DebtKey) → still_counted ended.now charge.now key ≤ amount_of owed.old.amounts key }
    ensures { (key : DebtKey) → amount_of owed.new.amounts key + still_counted ended.now charge.now key ≡ amount_of owed.old.amounts key }
{
    if !ended.has_ended(charge) {
        owed.take_charge(charge);
    }
}

fn counted_once(ended: &Ended, scope: &Scope, charge: &Charge) -> u64
    ensures value { result ≡ still_counted ended.now charge.now (all_periods scope.now) }
    ensures bound { result ≤ 10 ^ 12 }
{
    let counts = scope.covers(&charge.operator, &charge.provider, &charge.currency);
    if counts && !ended.has_ended(charge) {
        charge.cost.get()
    } else {
        0
    }
}

fn take_cdr(
    owed: &mut Owed,
    ended: &Ended,
    charged: &ChargePlaces,
    entries: &[AccountEntry],
    cdr: &CdrKey,
)
    requires owed { KnowsOwed owed.old entries.now }
    requires ended { KnowsEnded ended.now entries.now }
    requires charged { KnowsPlaces charged.now entries.now }
    ensures { (key : DebtKey) → amount_of owed.new.amounts key + owed_for cdr.now key entries.now ≡ owed_at key entries.now }
{
    let mut nth = 0;
    while let Some(charge) = charged.nth(entries, cdr, nth) {
        take_owed(owed, ended, &charge);
        nth += 1;
    }
}

fn end_periods(
    owed: &mut Owed,
    entries: &[AccountEntry],
    operators: &[Party],
    settlement: &Settlement,
)
    requires owed { KnowsOwed owed.old entries.now }
    requires operators { AreOperators operators.now entries.now }
    ensures { KnowsOwed owed.new (entries.now ++ account.Settlement settlement.now ∷ []) }
{
    let period = PeriodKey::ended_by(settlement);
    owed.end_period(&period, &None);
    for operator in operators {
        owed.end_period(&period, &Some(*operator));
    }
}

/// The debts of providers, found by their keys and summed.
#[derive(Drop)]
pub(crate) struct Debts {
    pub owed: Owed,
    pub ended: Ended,
    pub charged: ChargePlaces,
    pub operators: IndexSet<Party>,
}

impl Debts {
    pub(crate) fn new(alloc: Global) -> Debts
        ensures { KnowsDebts result [] }
    {
        Debts {
            owed: Owed::new(alloc),
            ended: Ended::new(alloc),
            charged: ChargePlaces::new(alloc),
            operators: IndexSet::new(alloc),
        }
    }

    /// What is owed within the scope, in ten-thousandths.
    pub(crate) fn owed(&self, entries: &[AccountEntry], scope: &Scope) -> u64
        requires { KnowsDebts self.now entries.now }
        ensures { result ≡ debts_of scope.now entries.now }
    {
        self.owed.amount(&DebtKey {
            period: None,
            operator: scope.operator,
            provider: scope.provider,
            currency: scope.currency,
        })
    }

    /// The same, with the charge added.
    pub(crate) fn owed_with(&self, entries: &[AccountEntry], scope: &Scope, charge: &Charge) -> u64
        requires knows { KnowsDebts self.now entries.now }
        requires fits { debts_of scope.now entries.now ≤ 10 ^ 15 }
        ensures { result ≡ debts_of scope.now (entries.now ++ account.Charge charge.now ∷ []) }
    {
        self.owed(entries, scope) + counted_once(&self.ended, scope, charge)
    }

    pub(crate) fn is_settled(&self, entries: &[AccountEntry], settlement: &Settlement) -> bool
        requires { KnowsDebts self.now entries.now }
        ensures { result ≡ is_settled settlement.now entries.now }
    {
        self.ended.is_settled(&PeriodKey::ended_by(settlement))
    }

    /// The debt that the settlement ends, in ten-thousandths.
    pub(crate) fn settled_debt(&self, entries: &[AccountEntry], settlement: &Settlement) -> u64
        requires { KnowsDebts self.now entries.now }
        ensures { result ≡ settled_debt settlement.now entries.now }
    {
        let period = PeriodKey::ended_by(settlement);
        self.owed.amount(&period.debts(Some(period.period), &None))
    }

    /// Room to find so many more charges.
    pub(crate) fn make_room(&mut self, charges: usize) -> Result<(), AllocError>
        ensures kept { (entries : List AccountEntry) → KnowsDebts self.old entries → KnowsDebts self.new entries }
        ensures room_kept { HasRoomForDebts self.old → HasRoomForDebts self.new }
    {
        self.charged.make_room(charges)
    }

    /// Room for what one more entry needs.
    pub(crate) fn reserve(&mut self) -> Result<(), AllocError>
        ensures room { OnOk result (HasRoomForDebts self.new) }
        ensures kept { (entries : List AccountEntry) → KnowsDebts self.old entries → KnowsDebts self.new entries }
        ensures room_kept { HasRoomForDebts self.old → HasRoomForDebts self.new }
    {
        self.owed.reserve()?;
        self.ended.reserve()?;
        self.charged.reserve()?;
        self.operators.reserve(1)
    }

    fn put_charge(&mut self, entries: &[AccountEntry], charge: &Charge)
        requires room { HasRoomForDebts self.old }
        requires knows { KnowsDebts self.old entries.now }
        requires bound { AreBounded entries.now }
        ensures { KnowsDebts self.new (entries.now ++ account.Charge charge.now ∷ []) }
    {
        add_owed(&mut self.owed, &self.ended, charge);
        self.charged.put(entries, charge);
        self.operators.insert(charge.operator).unwrap();
    }

    fn put_credit(&mut self, entries: &[AccountEntry], credit: &Credit)
        requires room { HasRoomForDebts self.old }
        requires knows { KnowsDebts self.old entries.now }
        ensures { KnowsDebts self.new (entries.now ++ account.Credit credit.now ∷ []) }
    {
        if let Some(original) = credit.original {
            let cdr = CdrKey {
                operator: credit.operator,
                cdr: original,
            };
            take_cdr(&mut self.owed, &self.ended, &self.charged, entries, &cdr);
            self.ended.credit(&cdr);
        }
    }

    fn put_settlement(&mut self, entries: &[AccountEntry], settlement: &Settlement)
        requires room { HasRoomForDebts self.old }
        requires knows { KnowsDebts self.old entries.now }
        ensures { KnowsDebts self.new (entries.now ++ account.Settlement settlement.now ∷ []) }
    {
        end_periods(
            &mut self.owed,
            entries,
            self.operators.as_slice(),
            settlement,
        );
        self.ended.settle(&PeriodKey::ended_by(settlement));
    }

    /// Takes the entry in, without taking memory.
    pub(crate) fn put(&mut self, entries: &[AccountEntry], entry: &AccountEntry)
        requires room { HasRoomForDebts self.old }
        requires knows { KnowsDebts self.old entries.now }
        requires bound { AreBounded entries.now }
        ensures { KnowsDebts self.new (entries.now ++ entry.now ∷ []) }
    {
        match entry {
            AccountEntry::Charge(charge) => self.put_charge(entries, charge),
            AccountEntry::Credit(credit) => self.put_credit(entries, credit),
            AccountEntry::Settlement(settlement) => self.put_settlement(entries, settlement),
            AccountEntry::Token(_) => {}
            AccountEntry::Hold(_) => {}
            AccountEntry::Release(_) => {}
        }
    }
}
