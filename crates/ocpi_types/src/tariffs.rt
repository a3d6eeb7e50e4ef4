//! The tariffs of a CDR.

ghost use Rattle.std.specs.Prelude.{◌≡◌, ◌<◌, [], ◌∷◌, length, slice_set};

use super::shared::Shared;
use super::tariff::Tariff;
use ocpi_json::same::{Same, are_same};
use ocpi_json::sequence::Sequence;
use std::marker::Model;
use std::slice;

#[derive(Drop)]
enum Kept {
    One(Shared<Tariff>),
    Any(Sequence<Shared<Tariff>>),
}

/// Tariffs in order. A single one takes no memory beside its own.
#[derive(Drop)]
pub struct Tariffs {
    kept: Kept,
}

impl Model for Tariffs {
    ghost use Rattle.std.specs.Prelude.{List};
    ghost use Rattle.ocpi_types.specs.Inner.KeptTariffs.{tariffs_of};
    ghost use Rattle.ocpi_types.specs.declared.tariff.Tariff.{Tariff};

    ghost Value = { List Tariff };

    ghost view = { λ tariffs. tariffs_of tariffs.kept };
}

impl Tariffs {
    /// A single tariff.
    pub(crate) fn one(tariff: Shared<Tariff>) -> Tariffs
        ensures { result ≡ tariff ∷ [] }
    {
        Tariffs {
            kept: Kept::One(tariff),
        }
    }

    /// These tariffs.
    pub(crate) fn of(tariffs: Sequence<Shared<Tariff>>) -> Tariffs
        ensures { result ≡ tariffs }
    {
        Tariffs {
            kept: Kept::Any(tariffs),
        }
    }

    /// The tariffs, without taking memory.
    pub fn as_slice(&self) -> &[Shared<Tariff>]
        ensures { result.now ≡ self.now }
    {
        match &self.kept {
            Kept::One(tariff) => slice::from_ref(tariff),
            Kept::Any(tariffs) => tariffs.as_slice(),
        }
    }

    /// Puts a tariff in the place of another, without taking memory.
    pub fn set(&mut self, at: usize, tariff: Shared<Tariff>)
        requires { at < length self.old }
        ensures { self.new ≡ slice_set self.old at tariff }
    {
        match &mut self.kept {
            Kept::One(only) => *only = tariff,
            Kept::Any(tariffs) => tariffs.set(at, tariff),
        }
    }
}

impl Same for Tariffs {
    fn is_same(&self, other: &Tariffs) -> bool {
        are_same(self.as_slice(), other.as_slice())
    }
}
