//! A line read as it stands, against its marked text as `serde_json` reads it.

use super::keys::{are_all_marked, are_last_marked};
use super::marks::marked_value;
use marked_lines::marking::mark;
use ocpi_json::{ReadFault, Room};
use serde_json::Value;
use std::alloc::Global;

/// How the two readings of a line compare.
#[derive(Clone, Copy, PartialEq, Eq)]
pub enum Comparison {
    /// Both are the same value.
    Read,
    /// Both are nothing.
    Refused,
    /// Both are nothing, but `serde_json` keeps of the marked text a value whose keys are marked: the others were keys of
    /// members that a later equal key replaced.
    Replaced,
    Different,
}

// What the marked text is read as. A value that is kept for the last of equal keys alone is none.
#[derive(Drop)]
enum Marked {
    Value(Value),
    Replaced,
    Nothing,
}

fn read_as_it_stands(
    alloc: Global,
    room: &mut Room,
    line: &[u8],
) -> Result<Option<Value>, ReadFault> {
    match room.read(line) {
        Ok(read) => Ok(Some(marked_value(alloc, &read.value())?)),
        Err(ReadFault::Syntax) => Ok(None),
        Err(ReadFault::NoMemory) => Err(ReadFault::NoMemory),
    }
}

fn value_of(alloc: Global, text: &[u8]) -> Result<Option<Value>, ReadFault> {
    match Value::from_slice(alloc, text) {
        Ok(value) => Ok(Some(value)),
        Err(error) if error.is_memory() => Err(ReadFault::NoMemory),
        Err(_) => Ok(None),
    }
}

fn are_keys_marked(room: &mut Room, text: &[u8]) -> Result<bool, ReadFault> {
    match room.read(text) {
        Ok(line) => Ok(are_all_marked(&line.value())),
        Err(ReadFault::Syntax) => Ok(false),
        Err(ReadFault::NoMemory) => Err(ReadFault::NoMemory),
    }
}

fn read_text(alloc: Global, room: &mut Room, text: &[u8]) -> Result<Marked, ReadFault> {
    let Some(value) = value_of(alloc, text)? else {
        return Ok(Marked::Nothing);
    };
    if are_keys_marked(room, text)? {
        Ok(Marked::Value(value))
    } else if are_last_marked(&value) {
        Ok(Marked::Replaced)
    } else {
        Ok(Marked::Nothing)
    }
}

fn read_marked(alloc: Global, room: &mut Room, line: &[u8]) -> Result<Marked, ReadFault> {
    match mark(alloc, line) {
        Ok(text) => read_text(alloc, room, text.as_slice()),
        Err(ReadFault::Syntax) => Ok(Marked::Nothing),
        Err(ReadFault::NoMemory) => Err(ReadFault::NoMemory),
    }
}

/// How the line reads, as it stands and as its marked text.
///
/// # Errors
///
/// `NoMemory` where memory ran out.
pub fn compare(alloc: Global, room: &mut Room, line: &[u8]) -> Result<Comparison, ReadFault> {
    let direct = read_as_it_stands(alloc, room, line)?;
    let marked = read_marked(alloc, room, line)?;
    Ok(match (&direct, &marked) {
        (Some(one), Marked::Value(other)) if one == other => Comparison::Read,
        (None, Marked::Nothing) => Comparison::Refused,
        (None, Marked::Replaced) => Comparison::Replaced,
        _ => Comparison::Different,
    })
}
