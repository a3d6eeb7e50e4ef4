//! The bytes of a read call, cut into batches of whole lines.

ghost use Rattle.std.specs.Prelude.{◌<◌, ◌≤◌, length, IfSome};

use memchr::memchr;
use ocpi_types::KnownTariffs;
use request_lines::NEWLINE;
use std::sync::Arc;

/// How many bytes a batch has at least, but for the last one.
pub const LEAST_BATCH_BYTES: usize = 16_384;

/// How many bytes a batch has at most before the rest of its last line.
const MOST_BATCH_BYTES: usize = 262_144;

/// Bytes from `start` to `end`, among those of a read call, which threads share, and what is remembered of tariffs for them.
#[derive(Drop)]
pub struct Batch {
    pub bytes: Arc<Vec<u8>>,
    pub start: usize,
    pub end: usize,
    pub tariffs: KnownTariffs,
}

/// Returns how many bytes a batch of so many has: two batches for each thread, but none too small to start a thread for.
fn batch_bytes(bytes: usize, threads: usize) -> usize
    ensures { 0 < result }
{
    (bytes / 2 / threads.max(1))
        .max(LEAST_BATCH_BYTES)
        .min(MOST_BATCH_BYTES)
}

/// Returns how many bytes the first batch has, at least so many: it ends with a line if a newline comes.
fn batch_length(bytes: &[u8], least: usize) -> usize
    requires bytes { 0 < length bytes.now }
    requires least { 0 < least }
    ensures some { 0 < result }
    ensures bound { result ≤ length bytes.now }
{
    if bytes.len() < least {
        return bytes.len();
    }
    match memchr(NEWLINE, &bytes[least - 1..]) {
        Some(at) => least + at,
        None => bytes.len(),
    }
}

/// Returns where the batch ends that begins at this place, for so many threads; `None` if no bytes begin there.
pub fn batch_end(bytes: &[u8], start: usize, threads: usize) -> Option<usize>
    ensures after { IfSome result (λ end. start < end) }
    ensures bound { IfSome result (λ end. end ≤ length bytes.now) }
{
    if start >= bytes.len() {
        return None;
    }
    let least = batch_bytes(bytes.len(), threads);
    Some(start + batch_length(&bytes[start..], least))
}
