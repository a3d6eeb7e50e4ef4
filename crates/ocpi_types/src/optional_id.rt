//! An id that may be missing.

ghost use Rattle.std.specs.Prelude.{◌≡◌, IfOk, is_some};

use super::shared::Shared;
use ocpi_json::ci_text::CiText;
use ocpi_json::same::Same;
use std::alloc::{AllocError, Global};
use std::marker::Model;

#[derive(Drop)]
enum Kept {
    Missing,
    Short(CiText<16>),
    Long(Shared<CiText<36>>),
}

/// An id of at most 36 bytes, or none. One of at most 16 bytes takes no memory of its own.
#[derive(Drop)]
pub struct OptionalId {
    kept: Kept,
}

impl Model for OptionalId {
    ghost use Rattle.std.specs.Prelude.{ℕ, List, Option};
    ghost use Rattle.ocpi_types.specs.Inner.KeptId.{id_of};

    ghost Value = { Option (List ℕ) };

    ghost view = { λ id. id_of id.kept };
}

impl OptionalId {
    /// The id, or none, as it is kept.
    ///
    /// # Errors
    ///
    /// `AllocError` if the allocation for a long id fails.
    pub fn new(alloc: Global, id: Option<CiText<36>>) -> Result<OptionalId, AllocError>
        ensures { IfOk result (λ kept. kept ≡ id) }
    {
        let Some(id) = id else {
            return Ok(OptionalId {
                kept: Kept::Missing,
            });
        };
        let kept = match CiText::new(id.as_str()) {
            Some(short) => Kept::Short(short),
            None => Kept::Long(Shared::new(alloc, id)?),
        };
        Ok(OptionalId { kept })
    }

    /// There is an id.
    pub fn is_some(&self) -> bool
        ensures { result ≡ is_some self.now }
    {
        match &self.kept {
            Kept::Missing => false,
            Kept::Short(_) | Kept::Long(_) => true,
        }
    }

    /// The id, if there is one.
    pub fn get(&self) -> Option<CiText<36>>
        ensures { result ≡ self.now }
    {
        match &self.kept {
            Kept::Missing => None,
            Kept::Short(id) => Some(id.widened()),
            Kept::Long(id) => Some(**id),
        }
    }
}

impl Same for OptionalId {
    fn is_same(&self, other: &OptionalId) -> bool {
        self.get().is_same(&other.get())
    }
}
