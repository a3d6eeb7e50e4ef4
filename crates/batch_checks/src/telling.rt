use crate::failure::Failure;
use crate::restart::{batch_of, finished, opened};
use hex::FromHexError;
use kept_batches::{KeepError, Recovery};
use sqlite_disk::Memory;
use std::alloc::{AllocError, Global};

/// What a file in hex digits is found to be: the number of its lines, its head, the head after half of
/// them, and the file with one more batch; or the byte where it is damaged.
pub fn found_text(alloc: Global, digits: &str) -> Result<String, Failure> {
    let bytes = match hex::decode(alloc, digits) {
        Ok(bytes) => bytes,
        Err(FromHexError::OutOfMemory) => return Err(Failure::Memory),
        Err(_) => return Err(Failure::OtherError),
    };
    let mut recovery = opened(alloc, Memory::new(alloc), &bytes)?;
    match read_on(&mut recovery) {
        Ok(()) => kept(alloc, recovery),
        Err(KeepError::Damaged(at)) => Ok(damaged(alloc, recovery.count(), at)?),
        Err(error) => Err(Failure::Keep(error)),
    }
}

fn read_on(recovery: &mut Recovery<Memory>) -> Result<(), KeepError> {
    while recovery.next_line()? {}
    Ok(())
}

fn damaged(alloc: Global, count: usize, at: usize) -> Result<String, AllocError> {
    format!(in alloc; "damaged at {at} after {count}")
}

fn kept(alloc: Global, mut recovery: Recovery<Memory>) -> Result<String, Failure> {
    let count = recovery.count();
    let half = half_head(&mut recovery, count)?;
    let mut log = finished(recovery)?;
    let head = hex::encode(alloc, log.head)?;
    log.append(&mut batch_of(alloc, b"one\nmore\n")?)?;
    let file = hex::encode(alloc, log.disk.bytes())?;
    let half = hex::encode(alloc, half)?;
    Ok(format!(in alloc; "kept {count} {head} {half} {file}")?)
}

// The head after half of the lines, of which there are no more.
fn half_head(recovery: &mut Recovery<Memory>, count: usize) -> Result<[u8; 32], Failure> {
    if recovery.head_at(count.saturating_add(1))?.is_some() {
        return Err(Failure::OtherLines);
    }
    match recovery.head_at(count / 2)? {
        Some(head) => Ok(head),
        None => Err(Failure::OtherLines),
    }
}
