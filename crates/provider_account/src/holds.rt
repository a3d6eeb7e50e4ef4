//! The open holds of accounts, and what they hold together.

ghost use Rattle.std.specs.Prelude.{◌≡◌, ◌+◌, ◌-◌, ◌^◌, ◌<◌, ◌≤◌, ◌&&◌, List, [], ◌∷◌, ◌++◌, None, Some, is_some, OnOk, length, if◌then◌else◌};
ghost use Rattle.indexmap.specs.IndexMap.{get, spare};
ghost use Rattle.cdr_checks.specs.declared.request.Release.{Release};
ghost use Rattle.plain_house.specs.Exposure.{holds_within, open_hold};
ghost use Rattle.plain_house.specs.declared.entry.AccountEntry.{AccountEntry};
ghost use Rattle.plain_house.specs.declared.entry.AccountEntry.TheVariants as account;
ghost use Rattle.plain_house.specs.declared.scope.Scope.{Scope};
ghost use Rattle.provider_account.specs.Inner.HoldSums.{hold_sum_at};
ghost use Rattle.provider_account.specs.Inner.Holds.{AreCovered, HasRoomForHolds, IsCovered, IsNext, IsNumbered, KnowsHolds, in_any_currency, key_of_hold, key_of_release, names_key, open_ended, open_under, open_used, same_hold, without};

use super::hold_sums::{HoldSumKey, add, sum_within, take_off};
use super::sums::SumsByKey;
use cdr_checks::Release;
use indexmap::IndexMap;
use ocpi_json::ci_text::CiText;
use ocpi_types::{Currency, Party};
use plain_house::{AccountEntry, Charge, Hold, Scope};
use std::alloc::{AllocError, Global};
use std::hash::{Hash, Hasher};

/// What an open hold is found by.
#[derive(Clone, Copy, PartialEq, Eq)]
pub(crate) struct HoldKey {
    pub operator: Party,
    pub provider: Party,
    pub reference: CiText<36>,
}

// A provider gives each hold a reference of its own, so its operator is not hashed, nor is its provider.
impl Hash for HoldKey {
    ghost use Rattle.std.specs.Prelude.{[], ◌∷◌};
    ghost use Rattle.ocpi_json.specs.Folded.{folded};
    ghost use Rattle.ocpi_json.specs.Inner.Cells.{padded};
    ghost use Rattle.provider_account.specs.Inner.HoldKeys.{hashed_alike};

    ghost hash_input = { λ key. padded 36 (folded key.reference) ∷ [] };

    ghost respects_eq = { hashed_alike };

    #[inline(always)]
    fn hash<H: Hasher>(&self, state: &mut H) {
        self.reference.hash(state);
    }
}

/// Open holds, and for each provider and currency what they hold.
#[derive(Drop)]
pub(crate) struct Holds {
    pub open: IndexMap<HoldKey, Hold>,
    pub sums: SumsByKey<HoldSumKey>,
}

fn key_of(hold: &Hold) -> HoldKey
    ensures { result ≡ key_of_hold hold.now }
{
    HoldKey {
        operator: hold.operator,
        provider: hold.provider,
        reference: hold.reference,
    }
}

fn key_of_release(release: &Release) -> HoldKey
    ensures { result ≡ key_of_release release.now }
{
    HoldKey {
        operator: release.operator,
        provider: release.provider,
        reference: release.reference,
    }
}

impl Holds {
    pub(crate) fn new(alloc: Global) -> Holds
        ensures { KnowsHolds result [] }
    {
        Holds {
            open: IndexMap::new(alloc),
            sums: SumsByKey::new(alloc),
        }
    }

    /// The open hold that the release ends.
    pub(crate) fn released(&self, release: &Release) -> Option<Hold>
        ensures { result ≡ open_under self.now release.now }
    {
        self.open.get(&key_of_release(release)).copied()
    }

    // The open hold that the charge uses up.
    fn used(&self, charge: &Charge) -> Option<Hold>
        ensures { result ≡ open_used self.now charge.now }
    {
        let release = Release {
            operator: charge.operator,
            provider: charge.provider,
            reference: charge.hold?,
        };
        let hold = self.released(&release)?;
        if charge.currency.is(&hold.currency) {
            Some(hold)
        } else {
            None
        }
    }

    // Takes out the open hold under the key. If a currency is given, it is the hold's, or the hold stays.
    fn take_out(&mut self, key: &HoldKey, currency: Option<Currency>) -> Option<Hold>
        requires { 0 < spare self.old.open }
        ensures taken { result ≡ in_any_currency currency (get same_hold self.old.open key.now) }
        ensures left { (other : HoldKey) → get same_hold self.new.open other ≡ (if is_some result && same_hold key.now other then None else get same_hold self.old.open other) }
        ensures sums { self.new.sums ≡ self.old.sums }
    {
        let hold = self.open.swap_remove(key)?;
        match currency {
            Some(currency) if !currency.is(&hold.currency) => {
                self.open.insert(*key, hold).unwrap();
                None
            }
            _ => Some(hold),
        }
    }

    // Takes out the open hold that the entry ends.
    fn take_ended(&mut self, entry: &AccountEntry) -> Option<Hold>
        requires { 0 < spare self.old.open }
        ensures ended { result ≡ open_ended self.old entry.now }
        ensures left { (release : Release) → open_under self.new release ≡ (if is_some result && names_key entry.now (key_of_release release) then None else open_under self.old release) }
        ensures sums { self.new.sums ≡ self.old.sums }
    {
        match entry {
            AccountEntry::Release(release) => self.take_out(&key_of_release(release), None),
            AccountEntry::Charge(charge) => {
                let key = HoldKey {
                    operator: charge.operator,
                    provider: charge.provider,
                    reference: charge.hold?,
                };
                self.take_out(&key, Some(charge.currency))
            }
            AccountEntry::Token(_)
            | AccountEntry::Hold(_)
            | AccountEntry::Credit(_)
            | AccountEntry::Settlement(_) => None,
        }
    }

    /// The sum of the open holds within the scope, in ten-thousandths.
    pub(crate) fn total(&self, scope: &Scope) -> u64
        ensures { result ≡ hold_sum_at self.now.sums scope.now }
    {
        sum_within(&self.sums, scope)
    }

    /// The same, with the charge added.
    pub(crate) fn total_with(&self, scope: &Scope, charge: &Charge) -> u64
        requires { AreCovered self.now }
        ensures { result ≡ without scope.now (open_used self.now charge.now) (hold_sum_at self.now.sums scope.now) }
    {
        let total = self.total(scope);
        let Some(hold) = self.used(charge) else {
            return total;
        };
        if scope.covers(&hold.operator, &hold.provider, &hold.currency) {
            total - hold.amount.get()
        } else {
            total
        }
    }

    fn begin(&mut self, hold: &Hold)
        requires room { HasRoomForHolds self.old }
        requires fits { (scope : Scope) → hold_sum_at self.old.sums scope + hold.now.amount < 2 ^ 64 }
        ensures opened { (release : Release) → open_under self.new release ≡ (if same_hold (key_of_hold hold.now) (key_of_release release) then Some hold.now else open_under self.old release) }
        ensures sums { (scope : Scope) → hold_sum_at self.new.sums scope ≡ (if holds_within scope hold.now then hold_sum_at self.old.sums scope + hold.now.amount else hold_sum_at self.old.sums scope) }
    {
        self.open.insert(key_of(hold), *hold).unwrap();
        add(&mut self.sums, hold);
    }

    /// Room for one more hold.
    pub(crate) fn reserve(&mut self) -> Result<(), AllocError>
        ensures room { OnOk result (HasRoomForHolds self.new) }
        ensures more { HasRoomForHolds self.old → HasRoomForHolds self.new }
        ensures kept { (entries : List AccountEntry) → KnowsHolds self.old entries → KnowsHolds self.new entries }
    {
        self.open.reserve(1)?;
        self.sums.reserve(2)
    }

    fn put_hold(&mut self, hold: &Hold)
        requires room { HasRoomForHolds self.old }
        requires fits { (scope : Scope) → hold_sum_at self.old.sums scope + hold.now.amount < 2 ^ 64 }
        ensures { (entries : List AccountEntry) → KnowsHolds self.old entries → length entries < 2 ^ 64 - 1 → IsNumbered entries hold.now
            → KnowsHolds self.new (entries ++ account.Hold hold.now ∷ []) }
    {
        self.begin(hold);
    }

    fn put_other(&mut self, entry: &AccountEntry)
        requires room { HasRoomForHolds self.old }
        requires covered { AreCovered self.old }
        requires other { open_hold entry.now [] ≡ [] }
        ensures { (entries : List AccountEntry) → KnowsHolds self.old entries → KnowsHolds self.new (entries ++ entry.now ∷ []) }
    {
        if let Some(hold) = self.take_ended(entry) {
            take_off(&mut self.sums, &hold);
        }
    }

    /// Takes the entry in, without taking memory.
    pub(crate) fn put(&mut self, entry: &AccountEntry)
        requires room { HasRoomForHolds self.old }
        requires covered { AreCovered self.old }
        requires fits { (scope : Scope) → hold_sum_at self.old.sums scope ≤ 10 ^ 15 }
        ensures { (entries : List AccountEntry) → KnowsHolds self.old entries → length entries < 2 ^ 64 - 1 → IsNext entries entry.now
            → KnowsHolds self.new (entries ++ entry.now ∷ []) }
    {
        match entry {
            AccountEntry::Hold(hold) => {
                let _amount = hold.amount.get();
                self.put_hold(hold);
            }
            AccountEntry::Token(_)
            | AccountEntry::Release(_)
            | AccountEntry::Charge(_)
            | AccountEntry::Credit(_)
            | AccountEntry::Settlement(_) => self.put_other(entry),
        }
    }
}
