use crate::failure::Failure;
use crate::files::{Found, read_again};
use crate::restart::{batch_of, logged, opened, restarted};
use kept_batches::KeepError;
use sqlite_disk::{Crash, Disk, Fuse, Memory};
use std::alloc::{AllocError, Global};

const FIRST: &[u8] = b"one\ntwo\n";

const SECOND: &[u8] = b"\n\xffthree\n";

const THIRD: &[u8] = b"+four\n";

const TEXT_BEFORE: &[u8] = b"one\ntwo\n\n\xffthree\n";

const TEXT_AFTER: &[u8] = b"one\ntwo\n\n\xffthree\n+four\n";

// More calls than a recovery and an append make.
const MOST_CALLS: u64 = 40;

// The file after a batch of this text.
fn appended(alloc: Global, bytes: &[u8], text: &[u8]) -> Result<Vec<u8>, Failure> {
    let mut log = logged(alloc, Memory::new(alloc), bytes)?;
    log.append(&mut batch_of(alloc, text)?)?;
    Ok(Vec::from_slice(alloc, log.disk.bytes())?)
}

// The file of two batches, and with a third.
fn before(alloc: Global) -> Result<Vec<u8>, Failure> {
    let first = appended(alloc, b"", FIRST)?;
    appended(alloc, &first, SECOND)
}

fn after(alloc: Global) -> Result<Vec<u8>, Failure> {
    let before = before(alloc)?;
    appended(alloc, &before, THIRD)
}

fn lines_of(alloc: Global, bytes: &[u8]) -> Result<Vec<u8>, Failure> {
    match read_again(alloc, bytes)? {
        Found::Lines(text) => Ok(text),
        Found::Damaged(_) => Err(Failure::OtherError),
    }
}

fn expect(alloc: Global, bytes: &[u8], text: &[u8]) -> Result<u64, Failure> {
    if lines_of(alloc, bytes)?.as_slice() == text {
        Ok(1)
    } else {
        Err(Failure::OtherLines)
    }
}

/// A recovery and an append that stop at each of their calls, killed and crashed.
pub fn appends(alloc: Global) -> Result<u64, Failure> {
    let mut count: u64 = 0;
    for calls in 0..MOST_CALLS {
        count = count.saturating_add(stopped(alloc, calls)?);
        count = count.saturating_add(crashed(alloc, calls)?);
    }
    Ok(count)
}

// An append that stops, a crash and a recovery.
fn crashed(alloc: Global, calls: u64) -> Result<u64, Failure> {
    let disk = Fuse::new(Memory::new(alloc), calls.saturating_add(2));
    let before = before(alloc)?;
    let Ok(log) = logged(alloc, disk, &before) else {
        return Ok(0);
    };
    let (is_acknowledged, log) = restarted(alloc, log, &mut batch_of(alloc, THIRD)?)?;
    left(alloc, log.disk.inner().bytes(), is_acknowledged)?;
    Ok(1)
}

fn stopped(alloc: Global, calls: u64) -> Result<u64, Failure> {
    let disk = Fuse::new(Memory::new(alloc), calls.saturating_add(2));
    let before = before(alloc)?;
    let (is_acknowledged, mut disk) = match opened(alloc, disk, &before)?.finish() {
        Ok(mut log) => (log.append(&mut batch_of(alloc, THIRD)?).is_ok(), log.disk),
        Err(failed) => (false, failed.disk),
    };
    left(alloc, disk.inner().bytes(), is_acknowledged)?;
    disk.crash();
    left(alloc, disk.inner().bytes(), is_acknowledged)?;
    Ok(2)
}

// The lines from before, or with the batch. It has to be there once it is acknowledged.
fn left(alloc: Global, bytes: &[u8], is_acknowledged: bool) -> Result<(), Failure> {
    let text = lines_of(alloc, bytes)?;
    if text.as_slice() == TEXT_AFTER || (!is_acknowledged && text.as_slice() == TEXT_BEFORE) {
        Ok(())
    } else {
        Err(Failure::OtherLines)
    }
}

// A recovery of this file that stops at each of its calls: the same lines have to be left.
fn recovered(alloc: Global, bytes: &[u8], text: &[u8]) -> Result<u64, Failure> {
    let mut count = expect(alloc, bytes, text)?;
    for calls in 0..12u64 {
        let disk = Fuse::new(Memory::new(alloc), calls.saturating_add(2));
        let mut disk = match opened(alloc, disk, bytes)?.finish() {
            Ok(log) => log.disk,
            Err(failed) => failed.disk,
        };
        count = count.saturating_add(expect(alloc, disk.inner().bytes(), text)?);
        disk.crash();
        count = count.saturating_add(expect(alloc, disk.inner().bytes(), text)?);
    }
    Ok(count)
}

/// A recovery of each kind of end that stops at each of its calls.
pub fn recoveries(alloc: Global) -> Result<u64, Failure> {
    let whole = after(alloc)?;
    let mut count = recovered(alloc, &whole, TEXT_AFTER)?;
    let mut torn = Vec::from_slice(alloc, &whole)?;
    torn.extend_from_slice(b" 00000007 ")?;
    count = count.saturating_add(recovered(alloc, &torn, TEXT_AFTER)?);
    let last = before(alloc)?.len().saturating_sub(4);
    let marks: [&[u8; 4]; 5] = [b"ke--", b"--pt", b"xxxx", b"kep-", b"\0\0\0\0"];
    for mark in marks {
        let image = marked(alloc, &whole, last, mark)?;
        count = count.saturating_add(recovered(alloc, &image, TEXT_AFTER)?);
    }
    let unbegun: [&[u8]; 5] = [b"", b"-", b"---", b"kept", b"-x--"];
    for image in unbegun {
        count = count.saturating_add(recovered(alloc, image, b"")?);
    }
    Ok(count)
}

// The file with another mark there.
fn marked(alloc: Global, bytes: &[u8], at: usize, mark: &[u8; 4]) -> Result<Vec<u8>, AllocError> {
    let mut image = Vec::from_slice(alloc, bytes)?;
    for index in 0..4usize {
        if let Some(byte) = image.get_mut(at.saturating_add(index)) {
            *byte = mark[index];
        }
    }
    Ok(image)
}

fn next(seed: &mut u64) -> u8 {
    *seed = seed
        .wrapping_mul(6364136223846793005)
        .wrapping_add(1442695040888963407);
    (*seed >> 56) as u8
}

/// Any bytes after the shut mark, and whole batches that nobody acknowledged.
pub fn torn_ends(alloc: Global) -> Result<u64, Failure> {
    let whole = before(alloc)?;
    let staged = after(alloc)?;
    let mut count: u64 = 0;
    let mut seed: u64 = 7;
    for round in 0..300u64 {
        let mut image = Vec::from_slice(alloc, &whole)?;
        for _ in 0..round % 100 {
            image.extend_from_slice(&[next(&mut seed)])?;
        }
        count = count.saturating_add(expect(alloc, &image, TEXT_BEFORE)?);
    }
    let start = whole.len();
    for end in start..staged.len() {
        let mut image = Vec::from_slice(alloc, &whole)?;
        image.extend_from_slice(staged.get(start..end).unwrap_or(b""))?;
        count = count.saturating_add(expect(alloc, &image, TEXT_BEFORE)?);
    }
    Ok(count)
}

/// Each byte in each place of the last mark, after which a whole batch comes.
pub fn marks(alloc: Global) -> Result<u64, Failure> {
    let whole = after(alloc)?;
    let last = before(alloc)?.len().saturating_sub(4);
    let mut count: u64 = 0;
    for place in 0..4usize {
        for byte in 0..=255u8 {
            let mut image = Vec::from_slice(alloc, &whole)?;
            if let Some(changed) = image.get_mut(last.saturating_add(place)) {
                *changed = byte;
            }
            count = count.saturating_add(expect(alloc, &image, TEXT_AFTER)?);
        }
    }
    let shut = marked(alloc, &whole, last, b"----")?;
    Ok(count.saturating_add(expect(alloc, &shut, TEXT_BEFORE)?))
}

/// Each bit of a file changed: how many were refused, and how many left the same lines.
pub fn bits(alloc: Global) -> Result<(u64, u64), Failure> {
    let whole = after(alloc)?;
    let mut refused: u64 = 0;
    let mut same: u64 = 0;
    for place in 0..whole.len() {
        for bit in 0..8u32 {
            let mut image = Vec::from_slice(alloc, &whole)?;
            if let Some(byte) = image.get_mut(place) {
                *byte ^= 1u8 << bit;
            }
            match read_again(alloc, &image)? {
                Found::Damaged(_) => refused = refused.saturating_add(1),
                Found::Lines(text) if text.as_slice() == TEXT_AFTER => same = same.saturating_add(
                    1,
                ),
                Found::Lines(_) => return Err(Failure::OtherLines),
            }
        }
    }
    Ok((refused, same))
}

/// Each beginning of a file: how many were refused, and how many are an empty file.
pub fn cuts(alloc: Global) -> Result<(u64, u64), Failure> {
    let whole = after(alloc)?;
    let mut refused: u64 = 0;
    let mut unbegun: u64 = 0;
    for end in 0..whole.len() {
        match read_again(alloc, whole.get(..end).unwrap_or(b""))? {
            Found::Damaged(_) => refused = refused.saturating_add(1),
            Found::Lines(text) if text.is_empty() && end <= 4 => unbegun = unbegun.saturating_add(
                1,
            ),
            Found::Lines(_) => return Err(Failure::OtherLines),
        }
    }
    Ok((refused, unbegun))
}

// A line of so many bytes, with its newline.
fn line_of(alloc: Global, length: usize) -> Result<Vec<u8>, AllocError> {
    let mut line = Vec::new(alloc);
    line.resize(length, b'z')?;
    line.extend_from_slice(b"\n")?;
    Ok(line)
}

/// Batches of some sizes around that of a read, and the largest; and one that is too large.
pub fn sizes(alloc: Global) -> Result<u64, Failure> {
    let mut file = Vec::new(alloc);
    let mut text = Vec::new(alloc);
    for length in [
        0usize, 1, 65_370, 65_375, 65_455, 65_456, 65_457, 65_458, 65_460, 200_000, 16_777_214,
    ] {
        let line = line_of(alloc, length)?;
        file = appended(alloc, &file, &line)?;
        text.extend_from_slice(&line)?;
    }
    let large = line_of(alloc, 16_777_215)?;
    match appended(alloc, &file, &large) {
        Err(Failure::Keep(KeepError::Full)) => expect(alloc, &file, &text),
        _ => Err(Failure::OtherError),
    }
}
