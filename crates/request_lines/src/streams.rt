ghost use Rattle.std.specs.Prelude.{◌≡◌, ℕ, ◌+◌, ◌<◌, ◌≤◌, List, [], ◌++◌, length, take, true, IfOk, OnOk, OnErr, IfErr};
ghost use Rattle.request_lines.specs.Streams.{Reading, Writing};

use super::faults::Failed;
use std::alloc::{AllocError, Global};

/// How many bytes a read call asks for where one thread reads and answers.
pub const READ_BYTES: usize = 65_536;

/// How many bytes a read call may ask for at most.
pub const MOST_READ_BYTES: usize = 4_194_304;

/// A reader of bytes, one call at a time.
pub trait Source {
    /// The bytes that calls return, the end, and whether a call has failed.
    ghost reading: { Reading Self };

    /// Reads some bytes to the front of the buffer, none only at the end.
    fn read(&mut self, buffer: &mut [u8]) -> Result<usize, Failed>
        requires some { 0 < length buffer.old }
        requires few { length buffer.old ≤ 4194304 }
        ensures bound { IfOk result (λ n. n ≤ length buffer.new) }
        ensures gives { IfOk result (λ n. reading.gives self.old 1 (take n buffer.new) self.new) }
        ensures end { IfOk result (λ n. n ≡ 0 → reading.at_end self.new) }
        ensures ok { OnOk result (reading.failed self.new ≡ reading.failed self.old) }
        ensures err { OnErr result (reading.failed self.new ≡ true) }
        ensures err_gives { OnErr result (reading.gives self.old 1 [] self.new) };

    ghost gives_none: { (a : Self) → reading.gives a 0 [] a };

    ghost gives_more: { (a b c : Self) (m n : ℕ) (xs ys : List ℕ) → reading.gives a m xs b → reading.gives b n ys c → reading.gives a (m + n) (xs ++ ys) c };
}

/// A writer of bytes, one call at a time.
pub trait Sink {
    /// The bytes that calls take, and whether a call has failed.
    ghost writing: { Writing Self };

    /// Writes some bytes of the front, at least one.
    fn write(&mut self, bytes: &[u8]) -> Result<usize, Failed>
        requires { 0 < length bytes.now }
        ensures some { IfOk result (λ n. 0 < n) }
        ensures bound { IfOk result (λ n. n ≤ length bytes.now) }
        ensures takes { IfOk result (λ n. writing.takes self.old (take n bytes.now) self.new) }
        ensures ok { OnOk result (writing.failed self.new ≡ writing.failed self.old) }
        ensures err { OnErr result (writing.failed self.new ≡ true) }
        ensures err_takes { OnErr result (writing.takes self.old [] self.new) };

    ghost takes_none: { (a : Self) → writing.takes a [] a };

    ghost takes_more: { (a b c : Self) (xs ys : List ℕ) → writing.takes a xs b → writing.takes b ys c → writing.takes a (xs ++ ys) c };
}

/// A buffer for read calls that ask for `len` bytes.
pub fn read_buffer(alloc: Global, len: usize) -> Result<Vec<u8>, AllocError>
    ensures { IfOk result (λ buffer. length buffer.items ≡ len) }
{
    vec![in alloc; 0u8; len]
}

/// Reads to the front of a whole buffer.
pub fn read_into<R: Source>(reader: &mut R, buffer: &mut Vec<u8>) -> Result<usize, Failed>
    requires some { 0 < length buffer.old.items }
    requires few { length buffer.old.items ≤ 4194304 }
    ensures same { length buffer.new.items ≡ length buffer.old.items }
    ensures bound { IfOk result (λ n. n ≤ length buffer.new.items) }
    ensures gives { IfOk result (λ n. R.reading.gives reader.old 1 (take n buffer.new.items) reader.new) }
    ensures end { IfOk result (λ n. n ≡ 0 → R.reading.at_end reader.new) }
    ensures ok { OnOk result (R.reading.failed reader.new ≡ R.reading.failed reader.old) }
    ensures err { OnErr result (R.reading.failed reader.new ≡ true) }
    ensures err_gives { OnErr result (R.reading.gives reader.old 1 [] reader.new) }
{
    reader.read(buffer.as_mut_slice())
}

/// Writes all bytes. An `Err` says how many of them are written.
pub fn write_all<W: Sink>(writer: &mut W, bytes: &[u8]) -> Result<(), usize>
    ensures ok { OnOk result (W.writing.takes writer.old bytes.now writer.new) }
    ensures unfailed { OnOk result (W.writing.failed writer.new ≡ W.writing.failed writer.old) }
    ensures err { IfErr result (λ n. W.writing.takes writer.old (take n bytes.now) writer.new) }
    ensures part { IfErr result (λ n. n < length bytes.now) }
    ensures failed { OnErr result (W.writing.failed writer.new ≡ true) }
{
    let mut at = 0;
    while at < bytes.len() {
        match writer.write(&bytes[at..]) {
            Ok(n) => at += n,
            Err(Failed) => return Err(at),
        }
    }
    Ok(())
}
