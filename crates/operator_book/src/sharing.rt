//! The tariffs of CDRs have one place in memory with their stored versions.

ghost use Rattle.std.specs.Prelude.{◌≡◌, IfSome};
ghost use Rattle.operator_book.specs.Inner.Versions.{FindsVersions};

use crate::versions::Versions;
use ocpi_json::same::Same;
use ocpi_types::{Cdr, Shared, Tariff, Tariffs, Unseen};
use plain_house::BookEntry;

impl Versions {
    // The stored version, for one more owner, where it is this tariff.
    fn shared(&self, entries: &[BookEntry], tariff: &Shared<Tariff>) -> Option<Shared<Tariff>>
        requires { FindsVersions self.now entries.now }
        ensures { IfSome result (λ shared. shared ≡ tariff.now) }
    {
        let version = self.find(entries, tariff)?;
        if version.is_same(tariff) {
            version.share().ok()
        } else {
            None
        }
    }

    // Puts the stored versions in the places of tariffs that are the same.
    fn share(&self, entries: &[BookEntry], tariffs: &mut Tariffs)
        requires { FindsVersions self.now entries.now }
        ensures { tariffs.new ≡ tariffs.old }
    {
        for at in 0..tariffs.as_slice().len() {
            if let Some(shared) = self.shared(entries, &tariffs.as_slice()[at]) {
                tariffs.set(at, shared);
            }
        }
    }
}

/// Lets the tariffs of CDRs be their stored versions, where these are the same, without taking memory.
#[derive(Clone, Copy)]
pub struct Sharing<'a> {
    versions: &'a Versions,
    entries: &'a [BookEntry],
    ghost finds: { FindsVersions versions.now entries.now },
}

impl<'a> Sharing<'a> {
    pub fn new(versions: &'a Versions, entries: &'a [BookEntry]) -> Sharing<'a>
        requires { FindsVersions versions.now entries.now }
    {
        Sharing { versions, entries }
    }
}

impl Unseen<Cdr> for Sharing<'_> {
    fn change(&self, cdr: &mut Cdr) {
        self.versions.share(self.entries, &mut cdr.tariffs);
    }
}
