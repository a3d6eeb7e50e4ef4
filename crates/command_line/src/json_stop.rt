//! Where a text stops being JSON.

ghost use Rattle.std.specs.Prelude.{◌≡◌, true, take, IfOk};
ghost use Rattle.command_line.specs.JsonStop.{Begins, IsStop};

mod number_part;
mod scan;
mod text_part;

use ocpi_json::{ReadFault, Room};
use scan::Scan;
use std::alloc::{AllocError, Global};

// How many of the bytes may begin a JSON text, and what is then begun.
fn scanned(text: &[u8]) -> (usize, Scan) {
    let mut scan = Scan::new();
    for (count, byte) in text.iter().enumerate() {
        match scan.after(*byte) {
            Some(longer) => scan = longer,
            None => return (count, scan),
        }
    }
    (text.len(), scan)
}

// Whether these bytes and the rest are a JSON text.
fn begins(alloc: Global, text: &[u8], rest: &[u8]) -> Result<bool, AllocError>
    ensures { IfOk result (λ begins. begins ≡ true → Begins text.now) }
{
    let mut whole = Vec::with_capacity(alloc, text.len())?;
    whole.extend_from_slice(text)?;
    whole.extend_from_slice(rest)?;
    let mut room = Room::new(alloc);
    match room.read(whole.as_slice()) {
        Ok(_) => Ok(true),
        Err(ReadFault::Syntax) => Ok(false),
        Err(ReadFault::NoMemory) => Err(AllocError),
    }
}

/// Returns how many bytes of a text that is no JSON are before the first byte that no JSON text can have there; all of them if the
/// text is cut short. Arrays and objects nest at most 127 levels.
///
/// # Errors
///
/// `AllocError` if an allocation fails.
pub fn find_json_stop(alloc: Global, text: &[u8]) -> Result<usize, AllocError>
    ensures { IfOk result (λ count. IsStop text.now count) }
{
    let (count, scan) = scanned(text);
    let count = count.min(text.len());
    let rest = scan.rest(alloc)?;
    if begins(alloc, &text[..count], rest.as_slice())? {
        Ok(count)
    } else {
        Ok(0)
    }
}
