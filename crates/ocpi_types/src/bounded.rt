ghost use Rattle.std.specs.Prelude.{◌≡◌, ◌≤◌, IfSome, IsSome, ◌↔◌};

use std::alloc::AllocError;
use std::marker::Model;

/// A whole number of at most `MOST`.
#[derive(PartialEq, Eq, PartialOrd, Ord)]
pub struct AtMost<const MOST: u64> {
    value: u64,
}

impl<const MOST: u64> Model for AtMost<MOST> {
    ghost use Rattle.std.specs.Prelude.{ℕ, ◌≤◌};

    ghost Value = { ℕ };

    ghost view = { λ number. number.value };

    ghost invariant = { λ number. number.value ≤ MOST };

    ghost inverse = { λ value. record { value = value } };
}

impl<const MOST: u64> Clone for AtMost<MOST> {
    ghost use Rattle.std.specs.Prelude.{◌≡◌, ⊤};

    ghost is_clone = { λ x y. y ≡ x };

    ghost is_infallible = { λ _. ⊤ };

    fn clone(&self) -> Result<AtMost<MOST>, AllocError> {
        Ok(*self)
    }
}

impl<const MOST: u64> Copy for AtMost<MOST> {}

impl<const MOST: u64> AtMost<MOST> {
    /// The number, if it is at most `MOST`.
    pub fn new(value: u64) -> Option<AtMost<MOST>>
        ensures most { IsSome result ↔ (value ≤ MOST) }
        ensures value { IfSome result (λ number. number ≡ value) }
    {
        if value <= MOST {
            Some(AtMost { value })
        } else {
            None
        }
    }

    /// 0.
    pub fn zero() -> AtMost<MOST>
        ensures { result ≡ 0 }
    {
        AtMost { value: 0 }
    }

    /// `MOST` itself.
    pub fn most() -> AtMost<MOST>
        ensures { result ≡ MOST }
    {
        AtMost { value: MOST }
    }

    pub fn get(&self) -> u64
        ensures value { result ≡ self.now }
        ensures most { result ≤ MOST }
    {
        self.value
    }
}
