//! The lines of a batch that are left to be answered.

ghost use Rattle.std.specs.Prelude.{◌≡◌, length, true, All, IfOk, IfSome};
ghost use Rattle.lines_ahead.specs.Inner.Left.{AreLeft};
ghost use Rattle.lines_ahead.specs.ReadLines.{AreRead, line_at};
ghost use Rattle.ocpi_types.specs.declared.config.Config.{Config};
ghost use Rattle.request_lines.specs.Script.{command_in};

use crate::read_batch::{ReadBatch, ReadLine};
use cdr_checks::Command;
use ocpi_types::{KnownTariffs, Refusal};
use std::alloc::{AllocError, Global};
use std::sync::Arc;
use std::vec::IntoIter;

/// The bytes of a read call, and lines of them that are read, the first one first.
#[derive(Drop)]
pub struct Left {
    bytes: Arc<Vec<u8>>,
    lines: IntoIter<ReadLine>,
}

/// Returns so many bytes from a place on, if there are so many.
fn bytes_at(bytes: &[u8], start: usize, count: usize) -> Option<&[u8]>
    ensures { IfSome result (λ found. found.now ≡ line_at bytes.now start count) }
{
    if start > bytes.len() || count > bytes.len() - start {
        return None;
    }
    let rest = &bytes[start..];
    Some(&rest[..count])
}

/// Whether these bytes have this line at a place.
fn has_line(bytes: &[u8], start: usize, count: usize, line: &[u8]) -> bool
    ensures { result ≡ true → line_at bytes.now start count ≡ line.now }
{
    match bytes_at(bytes, start, count) {
        Some(found) => found == line,
        None => false,
    }
}

/// Puts bytes in the place of those before, in the same memory.
///
/// # Errors
///
/// `AllocError` if an allocation fails, or if the bytes before have another owner.
fn renew_bytes(held: &mut Arc<Vec<u8>>, bytes: &[u8]) -> Result<(), AllocError> {
    let Some(held) = Arc::get_mut(held) else {
        return Err(AllocError);
    };
    held.clear();
    held.extend_from_slice(bytes)
}

impl Left {
    /// Returns no lines of no bytes.
    ///
    /// # Errors
    ///
    /// `AllocError` if an allocation fails.
    pub fn none(alloc: Global) -> Result<Left, AllocError>
        ensures { (config : Config) → IfOk result (AreLeft config) }
    {
        Ok(Left {
            bytes: Arc::new(alloc, Vec::new(alloc))?,
            lines: Vec::new(alloc).into_iter(),
        })
    }

    /// Leaves out all lines.
    pub fn clear(&mut self, alloc: Global)
        ensures { (config : Config) → AreLeft config self.new }
    {
        self.lines = Vec::new(alloc).into_iter();
    }

    /// Leaves out all lines, and puts these bytes in the place of those before, in the same memory.
    ///
    /// # Errors
    ///
    /// `AllocError` if an allocation fails, or if the bytes before have another owner.
    pub fn renew(&mut self, alloc: Global, bytes: &[u8]) -> Result<(), AllocError>
        ensures { (config : Config) → AreLeft config self.new }
    {
        let renewed = renew_bytes(&mut self.bytes, bytes);
        self.clear(alloc);
        renewed
    }

    /// Returns the bytes, for one more owner.
    ///
    /// # Errors
    ///
    /// `AllocError` if they have as many owners as can be counted, 2^63 - 1.
    pub fn share_bytes(&self) -> Result<Arc<Vec<u8>>, AllocError>
        ensures { IfOk result (λ bytes. bytes.value ≡ self.now.bytes.value) }
    {
        Arc::try_clone(&self.bytes)
    }

    /// Returns how many bytes there are.
    pub fn byte_count(&self) -> usize
        ensures { result ≡ length self.now.bytes.value.items }
    {
        self.bytes.len()
    }

    /// Returns the lines of a batch, and what is remembered of tariffs after it.
    pub fn of(batch: ReadBatch) -> (Left, KnownTariffs)
        ensures { (config : Config) → AreRead config batch → AreLeft config result.0 }
    {
        let ReadBatch {
            bytes,
            lines,
            tariffs,
        } = batch;
        let left = Left {
            bytes,
            lines: lines.into_iter(),
        };
        (left, tariffs)
    }

    /// Whether no line is left.
    pub fn is_empty(&self) -> bool {
        self.lines.len() == 0
    }

    /// Takes the first line, and returns its command, or why it is refused before a house is asked, if it is this line.
    pub fn command(&mut self, line: &[u8]) -> Option<Result<Command, Refusal>>
        ensures left { (config : Config) → AreLeft config self.old → AreLeft config self.new }
        ensures command { (config : Config) → AreLeft config self.old → IfSome result (λ command. command_in config line.now ≡ command) }
    {
        let ReadLine {
            start,
            length,
            command,
        } = self.lines.next()?;
        if has_line(self.bytes.as_slice(), start, length, line) {
            Some(command)
        } else {
            None
        }
    }
}
