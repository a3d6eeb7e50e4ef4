//! Where the charges of a CDR stand.

ghost use Rattle.std.specs.Prelude.{◌≡◌, ◌<◌, List, [], ◌∷◌, ◌++◌, length, slice_get, is_some, true, OnOk};
ghost use Rattle.indexmap.specs.IndexMap.{spare};
ghost use Rattle.plain_house.specs.declared.entry.AccountEntry.{AccountEntry};
ghost use Rattle.plain_house.specs.declared.entry.AccountEntry.TheVariants as account;
ghost use Rattle.provider_account.specs.Inner.Charged.{HasRoomForPlaces, KnowsPlaces, charge_at, place_of};
ghost use Rattle.provider_account.specs.Inner.DebtKeys.{cdr_of, charges_of};

use super::debt_keys::{CdrKey, ChargeKey};
use indexmap::IndexMap;
use plain_house::{AccountEntry, Charge};
use std::alloc::{AllocError, Global};

fn charge_at(entries: &[AccountEntry], place: usize) -> Option<Charge>
    ensures { result ≡ charge_at entries.now place }
{
    match entries.get(place) {
        Some(AccountEntry::Charge(charge)) => Some(*charge),
        _ => None,
    }
}

/// The places of charges among the entries. A CDR has one charge in each list of a house, so the first charge of each is found by
/// the CDR alone, and each later one by the number of charges of the CDR before it as well.
#[derive(Drop)]
pub(crate) struct ChargePlaces {
    pub firsts: IndexMap<CdrKey, usize>,
    pub others: IndexMap<ChargeKey, usize>,
}

impl ChargePlaces {
    pub(crate) fn new(alloc: Global) -> ChargePlaces
        ensures { KnowsPlaces result [] }
    {
        ChargePlaces {
            firsts: IndexMap::new(alloc),
            others: IndexMap::new(alloc),
        }
    }

    /// Room for the first charges of so many more CDRs.
    pub(crate) fn make_room(&mut self, cdrs: usize) -> Result<(), AllocError>
        ensures kept { (entries : List AccountEntry) → KnowsPlaces self.old entries → KnowsPlaces self.new entries }
        ensures room { HasRoomForPlaces self.old → HasRoomForPlaces self.new }
    {
        self.firsts.reserve(cdrs)
    }

    /// Room for one more charge.
    pub(crate) fn reserve(&mut self) -> Result<(), AllocError>
        ensures kept { (entries : List AccountEntry) → KnowsPlaces self.old entries → KnowsPlaces self.new entries }
        ensures ok { OnOk result (HasRoomForPlaces self.new) }
        ensures room { HasRoomForPlaces self.old → HasRoomForPlaces self.new }
    {
        self.firsts.reserve(1)?;
        self.others.reserve(1)
    }

    // The place of the charge of the CDR before which as many came.
    fn place(&self, cdr: &CdrKey, nth: usize) -> Option<usize>
        ensures { result ≡ place_of self.now (record { nth = nth; cdr = cdr.now }) }
    {
        if nth == 0 {
            return self.firsts.get(cdr).copied();
        }
        self.others.get(&ChargeKey { nth, cdr: *cdr }).copied()
    }

    /// The charge of the CDR before which as many came.
    pub(crate) fn nth(&self, entries: &[AccountEntry], cdr: &CdrKey, nth: usize) -> Option<Charge>
        requires { KnowsPlaces self.now entries.now }
        ensures { result ≡ slice_get (charges_of cdr.now entries.now) nth }
    {
        match self.place(cdr, nth) {
            Some(place) => charge_at(entries, place),
            None => None,
        }
    }

    fn count(&self, entries: &[AccountEntry], cdr: &CdrKey) -> usize
        requires { KnowsPlaces self.now entries.now }
        ensures { result ≡ length (charges_of cdr.now entries.now) }
    {
        let mut nth = 0;
        while self.nth(entries, cdr, nth).is_some() {
            nth += 1;
        }
        nth
    }

    // Puts one more charge of a CDR that has some.
    fn put_other(&mut self, entries: &[AccountEntry], charge: &Charge)
        requires room { 0 < spare self.old.others }
        requires knows { KnowsPlaces self.old entries.now }
        requires some { is_some (place_of self.old (record { nth = 0; cdr = cdr_of charge.now })) ≡ true }
        ensures { KnowsPlaces self.new (entries.now ++ account.Charge charge.now ∷ []) }
    {
        let cdr = CdrKey::of(charge);
        let nth = self.count(entries, &cdr);
        self.others
            .insert(ChargeKey { nth, cdr }, entries.len())
            .unwrap();
    }

    /// Takes the charge in, without taking memory. The first of a CDR costs one search.
    pub(crate) fn put(&mut self, entries: &[AccountEntry], charge: &Charge)
        requires room { HasRoomForPlaces self.old }
        requires knows { KnowsPlaces self.old entries.now }
        ensures { KnowsPlaces self.new (entries.now ++ account.Charge charge.now ∷ []) }
    {
        let first = self
            .firsts
            .insert(CdrKey::of(charge), entries.len())
            .unwrap();
        if let Some(first) = first {
            self.firsts.insert(CdrKey::of(charge), first).unwrap();
            self.put_other(entries, charge);
        }
    }
}
