//! Bytes that the reader returned and that are not kept yet.

ghost use Rattle.std.specs.Prelude.{◌≡◌, ◌≤◌, ◌+◌, ◌∷◌, ◌++◌, ℕ, List, [], drop, map, take, length, IfErr, IfOk, OnOk, OnErr};
ghost use Rattle.kept_batches.specs.Batch.{lines_of};
ghost use Rattle.request_lines.specs.Lines.{AreLines, whole_lines};
ghost use Rattle.kept_answers.specs.Faults.{IsOfStore};

use crate::fault::KeepFault;
use kept_batches::Batch;
use request_lines::{Failed, MOST_LINE_BYTES, Source, lines_join_to_bytes, split_line};
use std::alloc::{AllocError, Global};
use std::marker::Model;

/// How many bytes a read call of new lines asks for. Its whole lines are one batch.
pub const BATCH_BYTES: usize = 1_048_576;

/// Bytes that the reader returned and that are not kept yet.
#[derive(Drop)]
pub struct Pending {
    buffer: Vec<u8>,
    /// How many bytes at the front of the buffer are pending. The bytes after them are room for a read call.
    count: usize,
}

impl Model for Pending {
    ghost use Rattle.std.specs.Prelude.{◌≤◌, ℕ, List, length, take};

    ghost Value = { List ℕ };

    ghost view = { λ pending. take pending.count pending.buffer.items };

    ghost invariant = { λ pending. pending.count ≤ length pending.buffer.items };
}

/// Makes a buffer long enough for a read call after its first bytes. Only memory that is new is written.
fn make_room(buffer: &mut Vec<u8>, count: usize) -> Result<(), AllocError>
    requires within { count ≤ length buffer.old.items }
    requires few { count ≤ 1048576 }
    ensures room { OnOk result (count + 1048576 ≤ length buffer.new.items) }
    ensures front { take count buffer.new.items ≡ take count buffer.old.items }
    ensures within { count ≤ length buffer.new.items }
{
    let needed = count + BATCH_BYTES;
    if buffer.len() < needed {
        buffer.resize(needed, 0)?;
    }
    Ok(())
}

/// Reads some bytes to the room after the first bytes of a buffer.
fn read_after<R: Source>(reader: &mut R, buffer: &mut [u8], count: usize) -> Result<usize, Failed>
    requires { count + 1048576 ≤ length buffer.old }
    ensures front { take count buffer.new ≡ take count buffer.old }
    ensures bound { IfOk result (λ n. count + n ≤ length buffer.new) }
    ensures gives { IfOk result (λ n. R.reading.gives reader.old 1 (take n (drop count buffer.new)) reader.new) }
    ensures end { IfOk result (λ n. n ≡ 0 → R.reading.at_end reader.new) }
    ensures err { OnErr result (R.reading.gives reader.old 1 [] reader.new) }
{
    let (_, rest) = buffer.split_at_mut(count);
    let (room, _) = rest.split_at_mut(BATCH_BYTES);
    reader.read(room)
}

impl Pending {
    /// Returns no bytes.
    pub fn new(alloc: Global) -> Pending
        ensures { result ≡ [] }
    {
        Pending {
            buffer: Vec::new(alloc),
            count: 0,
        }
    }

    /// Returns the number of bytes.
    pub fn len(&self) -> usize
        ensures { result ≡ length self.now }
    {
        self.count
    }

    /// Returns the bytes.
    pub fn bytes(&self) -> &[u8]
        ensures { result.now ≡ self.now }
    {
        &self.buffer.as_slice()[..self.count]
    }

    /// Adds the bytes of a read call, and returns their number, which is 0 only at the end.
    ///
    /// # Errors
    ///
    /// `Read` if the reader fails, and `NoMemory` if an allocation fails. The bytes are as before.
    pub fn read<R: Source>(&mut self, reader: &mut R) -> Result<usize, KeepFault>
        requires { length self.old ≤ 1048576 }
        ensures some { IfOk result (λ n. (more : List ℕ) × R.reading.gives reader.old 1 more reader.new × (self.new ≡ self.old ++ more) × (length more ≡ n)) }
        ensures end { IfOk result (λ n. n ≡ 0 → R.reading.at_end reader.new) }
        ensures err { OnErr result ((calls : ℕ) × (calls ≤ 1) × R.reading.gives reader.old calls [] reader.new) }
        ensures same { OnErr result (self.new ≡ self.old) }
        ensures other { IfErr result (λ fault. IsOfStore fault → ⊥) }
    {
        let count = self.count;
        make_room(&mut self.buffer, count)?;
        match read_after(reader, self.buffer.as_mut_slice(), count) {
            Ok(n) => {
                self.count = count + n;
                Ok(n)
            }
            Err(Failed) => Err(KeepFault::Read),
        }
    }

    /// Removes the first bytes.
    pub fn drop_front(&mut self, count: usize)
        requires { count ≤ length self.old }
        ensures { self.new ≡ drop count self.old }
    {
        self.buffer.copy_within(count..self.count, 0);
        self.count -= count;
    }
}

fn add_size(sizes: &mut Vec<usize>, size: usize) -> Result<(), AllocError>
    ensures { OnOk result (sizes.new.items ≡ sizes.old.items ++ size ∷ []) }
{
    match sizes.push(size) {
        Ok(()) => Ok(()),
        Err(_) => Err(AllocError),
    }
}

/// Adds the whole lines of these bytes to a batch and their sizes to `sizes`, and returns how many bytes they are with their newlines.
///
/// # Errors
///
/// `LineTooLong` if one is longer than a line may be, and `NoMemory` if an allocation fails.
pub fn push_whole_lines(
    batch: &mut Batch,
    sizes: &mut Vec<usize>,
    bytes: &[u8],
) -> Result<usize, KeepFault>
    ensures within { IfOk result (λ count. count ≤ length bytes.now) }
    ensures lines { OnOk result (lines_of batch.new ≡ lines_of batch.old ++ whole_lines bytes.now) }
    ensures sizes { OnOk result (sizes.new.items ≡ sizes.old.items ++ map length (whole_lines bytes.now)) }
    ensures part { IfOk result (λ count. AreLines bytes.now (whole_lines bytes.now) (drop count bytes.now)) }
    ensures other { IfErr result (λ fault. IsOfStore fault → ⊥) }
{
    lines_join_to_bytes(bytes);
    let mut rest = bytes;
    while let Some((line, others)) = split_line(rest) {
        if line.len() > MOST_LINE_BYTES {
            return Err(KeepFault::LineTooLong);
        }
        batch.push(line)?;
        add_size(sizes, line.len())?;
        rest = others;
    }
    Ok(bytes.len() - rest.len())
}
