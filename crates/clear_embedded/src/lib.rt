//! The clearing house for programs in C and in other languages that call C: five functions over a house that C holds.
//! `clear.h` says how they are called.
#![tactic(auto)]

mod answering_house;
mod clear_house;
mod code;
mod house_pointer;
mod loose;
mod refused_line;

ghost use Rattle.std.specs.Prelude.{◌≡◌, None};
ghost use Rattle.clear_embedded.specs.Calls.{AgainIs, AnswerIs, CauseIs, OpenIs};
ghost use Rattle.clear_embedded.specs.Codes.{code_number};
ghost use Rattle.clear_embedded.specs.declared.code.Code.{Code as CodeValue};

use clear_house::ClearHouse;
use std::alloc::Global;

/// Opens an empty house of the configuration that these bytes say.
#[unsafe(no_mangle)]
pub extern "C" fn clear_embedded_open(alloc: Global, house: &mut ClearHouse, config: &[u8]) -> u32
    ensures { (code : CodeValue) × (result ≡ code_number code) × OpenIs code house.old.pointer.standing config.now house.new.pointer.standing }
{
    house.open(alloc, config).number()
}

/// Answers one line, which stands without its newline.
#[unsafe(no_mangle)]
pub extern "C" fn clear_embedded_answer(
    alloc: Global,
    house: &mut ClearHouse,
    line: &[u8],
    buffer: &mut [u8],
    length: &mut usize,
) -> u32
    ensures { (code : CodeValue) × (result ≡ code_number code)
        × AnswerIs code house.old.pointer.standing line.now house.new.pointer.standing
        (record { before = buffer.old; after = buffer.new; reported = length.new }) }
{
    let outcome = house.answer(alloc, line, buffer);
    *length = outcome.length;
    outcome.code.number()
}

/// Writes the answer that is kept.
#[unsafe(no_mangle)]
pub extern "C" fn clear_embedded_again(
    alloc: Global,
    house: &mut ClearHouse,
    buffer: &mut [u8],
    length: &mut usize,
) -> u32
    ensures { (code : CodeValue) × (result ≡ code_number code)
        × AgainIs code house.old.pointer.standing house.new.pointer.standing
        (record { before = buffer.old; after = buffer.new; reported = length.new }) }
{
    let outcome = house.again(alloc, buffer);
    *length = outcome.length;
    outcome.code.number()
}

/// Writes why the last line was refused, as JSON.
#[unsafe(no_mangle)]
pub extern "C" fn clear_embedded_cause(
    alloc: Global,
    house: &mut ClearHouse,
    buffer: &mut [u8],
    length: &mut usize,
) -> u32
    ensures { (code : CodeValue) × (result ≡ code_number code)
        × CauseIs code house.old.pointer.standing house.new.pointer.standing
        (record { before = buffer.old; after = buffer.new; reported = length.new }) }
{
    let outcome = house.cause(alloc, buffer);
    *length = outcome.length;
    outcome.code.number()
}

/// Ends the house, if there is one, with all that it has and keeps.
#[unsafe(no_mangle)]
pub extern "C" fn clear_embedded_close(alloc: Global, house: &mut ClearHouse)
    ensures { house.new.pointer.standing ≡ None }
{
    let _ended = house.take(alloc);
}
