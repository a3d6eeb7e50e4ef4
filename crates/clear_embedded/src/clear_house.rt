//! What C has of a house.

ghost use Rattle.std.specs.Prelude.{◌≡◌, Some, None, true, false, IsSome, MatchOption};
ghost use Rattle.clear_embedded.specs.Calls.{AgainIs, AnswerIs, CauseIs, OpenIs};

use super::answering_house::AnsweringHouse;
use super::code::{Code, Outcome};
use super::house_pointer::HousePointer;
use super::loose::Loose;
use ocpi_types::ConfigFault;
use std::alloc::Global;
use std::mem::replace;
use std::ptr::null_mut;

/// What C has of a house: `struct clear_house`.
#[repr(C)]
#[derive(Drop)]
pub struct ClearHouse {
    pub pointer: HousePointer,
    is_open: bool,
    ghost open_is: { is_open ≡ true → IsSome pointer.standing },
    ghost closed_is: { is_open ≡ false → pointer.standing ≡ None },
}

fn nowhere() -> *mut u8 {
    null_mut()
}

impl ClearHouse {
    fn closed(at: *mut u8) -> ClearHouse
        ensures { result.pointer.standing ≡ None }
    {
        ClearHouse {
            pointer: HousePointer::none(at),
            is_open: false,
        }
    }

    fn opened(house: Box<AnsweringHouse>) -> ClearHouse
        ensures { result.pointer.standing ≡ Some house.value }
    {
        ClearHouse {
            pointer: HousePointer::of(Loose::of(house)),
            is_open: true,
        }
    }

    /// Returns the house, if there is one, and is closed then.
    pub(crate) fn take(&mut self, alloc: Global) -> Option<Box<AnsweringHouse>>
        ensures house { MatchOption result (self.old.pointer.standing ≡ None) (λ house. self.old.pointer.standing ≡ Some house.value) }
        ensures closed { self.new.pointer.standing ≡ None }
    {
        let ClearHouse { pointer, is_open } = replace(self, ClearHouse::closed(nowhere()));
        if is_open {
            Some(pointer.into_loose(alloc).into_box())
        } else {
            None
        }
    }

    // Takes up a house if none is open.
    fn put(&mut self, house: Box<AnsweringHouse>)
        requires { self.old.pointer.standing ≡ None }
        ensures { self.new.pointer.standing ≡ Some house.value }
    {
        *self = ClearHouse::opened(house);
    }

    /// Opens an empty house of the configuration that these bytes say.
    pub(crate) fn open(&mut self, alloc: Global, config: &[u8]) -> Code
        ensures { OpenIs result self.old.pointer.standing config.now self.new.pointer.standing }
    {
        if self.is_open {
            return Code::Open;
        }
        match AnsweringHouse::open(alloc, config) {
            Ok(house) => {
                self.put(house);
                Code::Done
            }
            Err(ConfigFault::Syntax) => Code::NoJson,
            Err(ConfigFault::Member(_)) => Code::Member,
            Err(ConfigFault::NoMemory) => Code::NoMemory,
        }
    }

    /// Answers one line.
    pub(crate) fn answer(&mut self, alloc: Global, line: &[u8], buffer: &mut [u8]) -> Outcome
        ensures { AnswerIs result.code self.old.pointer.standing line.now self.new.pointer.standing
            (record { before = buffer.old; after = buffer.new; reported = result.length }) }
    {
        let Some(mut house) = self.take(alloc) else {
            return Outcome::of(Code::Closed);
        };
        let outcome = house.answer(alloc, line, buffer);
        self.put(house);
        outcome
    }

    /// Writes the answer that is kept.
    pub(crate) fn again(&mut self, alloc: Global, buffer: &mut [u8]) -> Outcome
        ensures { AgainIs result.code self.old.pointer.standing self.new.pointer.standing
            (record { before = buffer.old; after = buffer.new; reported = result.length }) }
    {
        let Some(mut house) = self.take(alloc) else {
            return Outcome::of(Code::Closed);
        };
        let outcome = house.again(alloc, buffer);
        self.put(house);
        outcome
    }

    /// Writes why the last line was refused.
    pub(crate) fn cause(&mut self, alloc: Global, buffer: &mut [u8]) -> Outcome
        ensures { CauseIs result.code self.old.pointer.standing self.new.pointer.standing
            (record { before = buffer.old; after = buffer.new; reported = result.length }) }
    {
        let Some(house) = self.take(alloc) else {
            return Outcome::of(Code::Closed);
        };
        let outcome = house.cause(alloc, buffer);
        self.put(house);
        outcome
    }
}
