//! Where a text stops being JSON.

use command_line::find_json_stop;
use std::alloc::{AllocError, Global};
use std::str;

/// A line and a column of a text, each from 1.
#[derive(Clone, Copy)]
pub struct Spot {
    pub line: usize,
    pub column: usize,
}

fn begins_character(byte: u8) -> bool {
    byte < 0x80 || 0xc0 <= byte
}

// Where the text ends, as the place of the character behind it.
fn spot_behind(text: &[u8]) -> Spot {
    let mut spot = Spot { line: 1, column: 1 };
    for byte in text {
        if *byte == b'\n' {
            spot.line = spot.line.saturating_add(1);
            spot.column = 1;
        } else if begins_character(*byte) {
            spot.column = spot.column.saturating_add(1);
        }
    }
    spot
}

/// Returns where these bytes, which are no JSON, stop being text, or the first character that no JSON text can have there.
pub fn spot_of(alloc: Global, bytes: &[u8]) -> Result<Spot, AllocError> {
    let count = match str::from_utf8(bytes) {
        Ok(_) => find_json_stop(alloc, bytes)?,
        Err(error) => error.valid_up_to(),
    };
    Ok(spot_behind(&bytes[..count.min(bytes.len())]))
}
