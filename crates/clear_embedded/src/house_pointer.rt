//! A house behind a pointer that C holds.

ghost use Rattle.std.specs.Prelude.{◌≡◌, Some, None, IsSome, Option};
ghost use Rattle.clear_embedded.specs.Standing.{Standing};

use super::answering_house::AnsweringHouse;
use super::loose::Loose;
use std::alloc::Global;
use std::marker::Model;

/// A house behind a pointer that C holds, or none. C sees a pointer to nothing in particular.
#[repr(C)]
#[derive(Drop)]
pub struct HousePointer {
    at: *mut u8,
    /// How the house stands.
    pub ghost standing: { Option Standing },
}

impl Model for HousePointer {
    ghost use Rattle.clear_embedded.specs.Owned.{may_free, owned};
    ghost use Rattle.clear_embedded.specs.contracts.answering_house.AnsweringHouse.{the_row};

    ghost also_owns = { λ h. owned may_free the_row h.at h.standing };
}

impl HousePointer {
    pub(crate) fn none(at: *mut u8) -> HousePointer
        ensures { result.standing ≡ None }
    {
        HousePointer { at }
    }

    pub(crate) fn of(loose: Loose<AnsweringHouse, Global>) -> HousePointer
        ensures { result.standing ≡ Some loose.value }
    {
        let Loose { at, alloc: _ } = loose;
        HousePointer { at: at as *mut u8 }
    }

    pub(crate) fn into_loose(self, alloc: Global) -> Loose<AnsweringHouse, Global>
        requires { IsSome self.standing }
        ensures { self.standing ≡ Some result.value }
    {
        let HousePointer { at } = self;
        Loose {
            at: at as *mut AnsweringHouse,
            alloc,
        }
    }
}
