use crate::failure::Failure;
use crate::restart::{batch_of, finished, opened};
use kept_batches::{KeepError, Log, Recovery, first_head, head_after};
use sqlite_disk::{Disk, Memory};
use std::alloc::Global;

/// What was found of a file.
pub enum Found {
    /// Its lines, each with a newline.
    Lines(Vec<u8>),
    /// The byte where it is damaged.
    Damaged(usize),
}

/// Adds the lines that are left to a text, each with a newline.
fn read_on<D: Disk>(recovery: &mut Recovery<D>, text: &mut Vec<u8>) -> Result<(), KeepError> {
    while recovery.next_line()? {
        text.extend_from_slice(recovery.line())?;
        text.extend_from_slice(b"\n")?;
    }
    Ok(())
}

/// Reads a file, recovers it, reads it again, and compares. A damaged file has to stay as it is.
pub fn read_again(alloc: Global, bytes: &[u8]) -> Result<Found, Failure> {
    let mut recovery = opened(alloc, Memory::new(alloc), bytes)?;
    let mut text = Vec::new(alloc);
    match read_on(&mut recovery, &mut text) {
        Ok(()) => {}
        Err(KeepError::Damaged(at)) => {
            refused(alloc, bytes, at)?;
            return Ok(Found::Damaged(at));
        }
        Err(error) => return Err(error.into()),
    }
    let torn = recovery.torn_end()?;
    if let Some(at) = torn
        && bytes.get(at..) != Some(recovery.torn())
    {
        return Err(Failure::OtherFile);
    }
    let log = finished(recovery)?;
    compare(alloc, &log, &text)?;
    Ok(Found::Lines(text))
}

// A damaged file is refused where it is damaged, and is as before.
fn refused(alloc: Global, bytes: &[u8], at: usize) -> Result<(), Failure> {
    match opened(alloc, Memory::new(alloc), bytes)?.finish() {
        Ok(_) => Err(Failure::OtherError),
        Err(failed) => {
            if !matches!(failed.cause, KeepError::Damaged(found) if found == at) {
                return Err(Failure::OtherError);
            }
            if failed.disk.bytes() != bytes {
                return Err(Failure::OtherFile);
            }
            Ok(())
        }
    }
}

// The recovered file has these lines and this head, and needs no repair.
fn compare(alloc: Global, log: &Log<Memory>, text: &[u8]) -> Result<(), Failure> {
    let bytes = log.disk.bytes();
    let mut recovery = opened(alloc, Memory::new(alloc), bytes)?;
    let mut again = Vec::new(alloc);
    read_on(&mut recovery, &mut again)?;
    if again.as_slice() != text {
        return Err(Failure::OtherLines);
    }
    let batch = batch_of(alloc, text)?;
    if head_after(&first_head(), batch.text()) != log.head || *recovery.head() != log.head {
        return Err(Failure::OtherLines);
    }
    let log = finished(recovery)?;
    if log.disk.bytes() != bytes || log.end + 4 != bytes.len() {
        return Err(Failure::OtherFile);
    }
    Ok(())
}
