//! How many CDRs and tariff versions each operator has in a list of entries.

ghost use Rattle.std.specs.Prelude.{◌≡◌, ◌+◌, ◌<◌, ◌^◌, [], ◌∷◌, ◌++◌, List, true, false, OnOk, if◌then◌else◌};
ghost use Rattle.indexmap.specs.IndexMap.{spare};
ghost use Rattle.ocpi_types.specs.Party.{same_party};
ghost use Rattle.ocpi_types.specs.declared.party.Party.{Party as Operator};
ghost use Rattle.operator_book.specs.Inner.Counts.{CountsCdrs, CountsVersions, counted, first_if};
ghost use Rattle.plain_house.specs.Full.{is_cdr_of, is_version_of};
ghost use Rattle.plain_house.specs.declared.entry.BookEntry.{BookEntry as Entry};

use indexmap::IndexMap;
use ocpi_types::Party;
use plain_house::BookEntry;
use std::alloc::{AllocError, Global};

/// A number for each operator that has any. A book has one operator as a rule, so the first one costs no search.
#[derive(Drop)]
pub struct CountsByOperator {
    counts: IndexMap<Party, u64>,
}

impl CountsByOperator {
    fn new(alloc: Global) -> CountsByOperator
        ensures { (operator : Operator) → counted result operator ≡ 0 }
    {
        CountsByOperator {
            counts: IndexMap::new(alloc),
        }
    }

    fn reserve(&mut self) -> Result<(), AllocError>
        ensures counts { (operator : Operator) → counted self.new operator ≡ counted self.old operator }
        ensures room { OnOk result (0 < spare self.new.counts) }
        ensures kept { 0 < spare self.old.counts → 0 < spare self.new.counts }
    {
        self.counts.reserve(1)
    }

    // The number of the operator if it is the first one.
    fn first(&self, operator: &Party) -> Option<u64>
        ensures { result ≡ first_if (same_party operator.now) self.now.counts.entries }
    {
        match self.counts.first() {
            Some((first, count)) if operator.is(first) => Some(*count),
            _ => None,
        }
    }

    fn of(&self, operator: &Party) -> u64
        ensures { result ≡ counted self.now operator.now }
    {
        if let Some(count) = self.first(operator) {
            return count;
        }
        self.counts.get(operator).copied().unwrap_or(0)
    }

    // Counts one more of the operator if it is the first one, and says whether it is.
    fn add_to_first(&mut self, operator: &Party) -> bool
        requires { counted self.old operator.now < 2 ^ 63 }
        ensures added { result ≡ true → (asked : Operator) → counted self.new asked ≡ counted self.old asked + (if same_party operator.now asked then 1 else 0) }
        ensures kept { result ≡ false → self.new ≡ self.old }
    {
        if self.first(operator).is_none() {
            return false;
        }
        match self.counts.first_mut() {
            Some(count) => {
                *count += 1;
                true
            }
            None => false,
        }
    }

    // Searches for the operator, and counts one more of it.
    fn add_to_any(&mut self, operator: Party)
        requires room { 0 < spare self.old.counts }
        requires fits { counted self.old operator < 2 ^ 63 }
        ensures { (asked : Operator) → counted self.new asked ≡ counted self.old asked + (if same_party operator asked then 1 else 0) }
    {
        if let Some(count) = self.counts.get_mut(&operator) {
            *count += 1;
            return;
        }
        self.counts.insert(operator, 1).unwrap();
    }

    fn add_one(&mut self, operator: Party)
        requires room { 0 < spare self.old.counts }
        requires fits { counted self.old operator < 2 ^ 63 }
        ensures { (asked : Operator) → counted self.new asked ≡ counted self.old asked + (if same_party operator asked then 1 else 0) }
    {
        if !self.add_to_first(&operator) {
            self.add_to_any(operator);
        }
    }
}

/// The CDRs and Credit CDRs, and the tariff versions, of each operator.
#[derive(Drop)]
pub struct BookCounts {
    cdrs: CountsByOperator,
    versions: CountsByOperator,
}

impl BookCounts {
    pub fn new(alloc: Global) -> BookCounts
        ensures cdrs { CountsCdrs result.cdrs [] }
        ensures versions { CountsVersions result.versions [] }
    {
        BookCounts {
            cdrs: CountsByOperator::new(alloc),
            versions: CountsByOperator::new(alloc),
        }
    }

    /// Makes room for one more operator.
    pub fn reserve(&mut self) -> Result<(), AllocError>
        ensures cdrs { (entries : List Entry) → CountsCdrs self.old.cdrs entries → CountsCdrs self.new.cdrs entries }
        ensures versions { (entries : List Entry) → CountsVersions self.old.versions entries → CountsVersions self.new.versions entries }
        ensures cdrs_room { OnOk result (0 < spare self.new.cdrs.counts) }
        ensures versions_room { OnOk result (0 < spare self.new.versions.counts) }
        ensures cdrs_kept { 0 < spare self.old.cdrs.counts → 0 < spare self.new.cdrs.counts }
        ensures versions_kept { 0 < spare self.old.versions.counts → 0 < spare self.new.versions.counts }
    {
        self.cdrs.reserve()?;
        self.versions.reserve()
    }

    /// How many CDRs and Credit CDRs the operator has.
    pub fn cdrs_of(&self, operator: &Party) -> u64
        ensures { result ≡ counted self.now.cdrs operator.now }
    {
        self.cdrs.of(operator)
    }

    /// How many tariff versions the operator has.
    pub fn versions_of(&self, operator: &Party) -> u64
        ensures { result ≡ counted self.now.versions operator.now }
    {
        self.versions.of(operator)
    }

    /// Counts the entry that comes after these as well, without taking memory.
    pub fn add(&mut self, entries: &[BookEntry], entry: &BookEntry)
        requires cdrs_room { 0 < spare self.old.cdrs.counts }
        requires versions_room { 0 < spare self.old.versions.counts }
        requires cdrs { CountsCdrs self.old.cdrs entries.now }
        requires versions { CountsVersions self.old.versions entries.now }
        ensures cdrs { CountsCdrs self.new.cdrs (entries.now ++ entry.now ∷ []) }
        ensures versions { CountsVersions self.new.versions (entries.now ++ entry.now ∷ []) }
    {
        let _length = entries.len();
        match entry {
            BookEntry::Tariff(tariff) => self.versions.add_one(tariff.operator),
            BookEntry::Cdr { cdr, .. } => self.cdrs.add_one(cdr.operator),
            BookEntry::Credit { cdr, .. } => self.cdrs.add_one(cdr.operator),
        }
    }
}
