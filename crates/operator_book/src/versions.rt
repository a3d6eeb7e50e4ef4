//! The tariff versions of a list of entries, found by operator, id and moment.

ghost use Rattle.std.specs.Prelude.{◌≡◌, ◌<◌, [], ◌∷◌, ◌++◌, List, option_copied, OnOk};
ghost use Rattle.std.specs.Option.{option_to_list};
ghost use Rattle.indexmap.specs.IndexMap.{spare};
ghost use Rattle.operator_book.specs.Inner.Versions.{FindsVersions, IsNewVersion, StoresEachOnce};
ghost use Rattle.plain_house.specs.Tariffs.{is_registered, lacks_registered, stored_version, version_in};
ghost use Rattle.plain_house.specs.declared.entry.BookEntry.{BookEntry as Entry};

use crate::keys::VersionKey;
use crate::places::Places;
use ocpi_types::laws::same_tariffs_are_equal_folded;
use ocpi_types::{Cdr, Party, Shared, Tariff, same_tariff};
use plain_house::BookEntry;
use std::alloc::{AllocError, Global};

fn version_in(entry: &BookEntry) -> Option<&Shared<Tariff>>
    ensures { option_to_list (option_copied result) ≡ version_in entry.now }
{
    match entry {
        BookEntry::Tariff(tariff) => Some(tariff),
        BookEntry::Cdr { .. } | BookEntry::Credit { .. } => None,
    }
}

fn key_of(tariff: &Tariff) -> VersionKey
    ensures { result ≡ record { operator = tariff.now.operator; id = tariff.now.id; last_updated = tariff.now.last_updated } }
{
    VersionKey {
        operator: tariff.operator,
        id: tariff.id,
        last_updated: tariff.last_updated,
    }
}

/// The place of the tariff version of each operator, id and moment.
#[derive(Drop)]
pub struct Versions {
    places: Places<VersionKey>,
}

impl Versions {
    pub fn new(alloc: Global) -> Versions
        ensures { FindsVersions result [] }
    {
        Versions {
            places: Places::new(alloc),
        }
    }

    /// Makes room for one more.
    pub fn reserve(&mut self) -> Result<(), AllocError>
        ensures places { (entries : List Entry) → FindsVersions self.old entries → FindsVersions self.new entries }
        ensures room { OnOk result (0 < spare self.new.places.firsts) }
        ensures kept { 0 < spare self.old.places.firsts → 0 < spare self.new.places.firsts }
    {
        self.places.reserve(1)
    }

    /// The stored version of that operator, id and moment.
    pub fn find<'a>(&self, entries: &'a [BookEntry], tariff: &Tariff) -> Option<&'a Shared<Tariff>>
        requires { FindsVersions self.now entries.now }
        ensures { option_copied result ≡ stored_version tariff.now entries.now }
    {
        let place = self.places.get(&key_of(tariff))?;
        version_in(entries.get(place)?)
    }

    // The operator has stored a version with the content of this tariff.
    fn is_registered(&self, entries: &[BookEntry], operator: &Party, tariff: &Tariff) -> bool
        requires kept { FindsVersions self.now entries.now }
        requires once { StoresEachOnce entries.now }
        ensures { result ≡ is_registered operator.now entries.now tariff.now }
    {
        match self.find(entries, tariff) {
            Some(version) => version.operator.is(operator) && same_tariff(version, tariff),
            None => false,
        }
    }

    /// One of the CDR's tariffs is no stored version of its operator.
    pub fn lacks_registered(&self, entries: &[BookEntry], cdr: &Cdr) -> bool
        requires kept { FindsVersions self.now entries.now }
        requires once { StoresEachOnce entries.now }
        ensures { result ≡ lacks_registered cdr.now entries.now }
    {
        cdr.tariffs.as_slice().iter().any(|tariff| !self.is_registered(
            entries,
            &cdr.operator,
            tariff,
        ))
    }

    /// Finds the entry that comes after these as well, without taking memory.
    pub fn add(&mut self, entries: &[BookEntry], entry: &BookEntry)
        requires room { 0 < spare self.old.places.firsts }
        requires kept { FindsVersions self.old entries.now }
        requires once { StoresEachOnce entries.now }
        requires fresh { IsNewVersion entries.now entry.now }
        ensures kept { FindsVersions self.new (entries.now ++ entry.now ∷ []) }
        ensures once { StoresEachOnce (entries.now ++ entry.now ∷ []) }
    {
        same_tariffs_are_equal_folded();
        if let Some(tariff) = version_in(entry) {
            self.places.put(key_of(tariff), entries.len());
        }
    }
}
