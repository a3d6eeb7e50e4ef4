ghost use Rattle.std.specs.Prelude.{◌≡◌, ◌↔◌, ◌++◌, ◌+◌, ◌-◌, ◌≤◌, ◌<◌, ◌^◌, ◌∷◌, [], length, take, drop, IsTrue, OnOk, OnErr, IfOk, IfErr, vec_len, vec_capacity};
ghost use Rattle.sqlite_disk.specs.Disk.{Only, MoreFaults};
ghost use Rattle.kept_batches.specs.Text.{IsLine, AddsLines, lines_in, marked};
ghost use Rattle.kept_batches.specs.File.{header, shut_mark};
ghost use Rattle.kept_batches.specs.Inner.Writes.{Appends, AppendsAtAnyMoment, sealed};

use crate::header::put_header;
use crate::lines::{MARK, NEWLINE, is_nothing};
use crate::writes::{SHUT, write_batch};
use memchr::memchr;
use sqlite_disk::Disk;
use std::alloc::{AllocError, Global};
use std::io;

// The header comes before the lines, and is written when they are appended to a log.
const ROOM: usize = 75;

/// Lines that a log keeps together: after a crash, all of them are there or none.
#[derive(Drop)]
pub struct Batch {
    bytes: Vec<u8>,
    ghost room: { 75 ≤ length bytes.items },
    ghost whole: { drop 75 bytes.items ≡ marked (lines_in (drop 75 bytes.items)) },
    // A shut mark can be put after the lines at any time.
    ghost mark_fits: { vec_len bytes + 4 ≤ vec_capacity bytes },
}

impl Batch {
    ghost use Rattle.kept_batches.specs.Batch.{lines_of, text_of};

    pub fn new(alloc: Global) -> Result<Batch, AllocError>
        ensures { IfOk result (λ batch. lines_of batch ≡ []) }
    {
        Ok(Batch {
            bytes: room(alloc)?,
        })
    }

    /// Adds a line. At an error the batch is as it was.
    pub fn push(&mut self, line: &[u8]) -> Result<(), AllocError>
        requires { IsLine line.now }
        ensures ok { OnOk result (lines_of self.new ≡ lines_of self.old ++ line.now ∷ []) }
        ensures err { OnErr result (lines_of self.new ≡ lines_of self.old) }
    {
        add(&mut self.bytes, line)
    }

    /// Adds the whole lines of a text, and returns the number of bytes that they have with their
    /// newlines. At an error some of them are added.
    pub fn push_lines(&mut self, text: &[u8]) -> Result<usize, AllocError>
        ensures { IfOk result (λ count. AddsLines (lines_of self.old) text.now count (lines_of self.new)) }
    {
        let mut rest = text;
        while let Some(end) = memchr(NEWLINE, rest) {
            self.push(&rest[..end])?;
            rest = &rest[end + 1..];
        }
        Ok(text.len() - rest.len())
    }

    /// The lines, each after its `+` and with its newline.
    pub fn text(&self) -> &[u8]
        ensures text { result.now ≡ text_of self.now }
        ensures whole { result.now ≡ marked (lines_of self.now) }
    {
        &self.bytes[ROOM..]
    }

    /// Removes the lines, and keeps the memory.
    pub fn clear(&mut self)
        ensures { lines_of self.new ≡ [] }
    {
        self.bytes.truncate(ROOM);
    }

    pub fn is_empty(&self) -> bool
        ensures { IsTrue result ↔ (lines_of self.now ≡ []) }
    {
        is_nothing(self.text())
    }

    /// Writes the lines as a batch after the shut mark at `end`, and then opens the mark.
    pub(crate) fn write<D: Disk>(
        &mut self,
        disk: &mut D,
        end: usize,
        head: &[u8; 32],
    ) -> io::Result<()>
        requires durable { Only (D.Disk.seen disk.old) (D.Disk.may_leave disk.old) }
        requires usable { IsTrue (D.Disk.is_usable disk.old) }
        requires fits { end + 4 < 2 ^ 64 }
        ensures lines { lines_of self.new ≡ lines_of self.old }
        ensures file { OnOk result (Appends (D.Disk.seen disk.old) end (sealed head.now (text_of self.old)) (D.Disk.seen disk.new)) }
        ensures any_moment { AppendsAtAnyMoment (D.Disk.seen disk.old) end (sealed head.now (text_of self.old)) (D.Disk.may_leave disk.new) }
        ensures durable { OnOk result (Only (D.Disk.seen disk.new) (D.Disk.may_leave disk.new)) }
        ensures usable { OnOk result (IsTrue (D.Disk.is_usable disk.new)) }
        ensures clean { D.Disk.is_clean disk.new ≡ D.Disk.is_clean disk.old }
        ensures failed { IfErr result (λ _. MoreFaults (D.Disk.faults disk.old) (D.Disk.faults disk.new)) }
    {
        write(&mut self.bytes, disk, end, head)
    }
}

// An empty batch.
fn room(alloc: Global) -> Result<Vec<u8>, AllocError>
    ensures len { IfOk result (λ bytes. length bytes.items ≡ 75) }
    ensures mark_fits { IfOk result (λ bytes. vec_len bytes + 4 ≤ vec_capacity bytes) }
{
    let mut bytes = Vec::new(alloc);
    bytes.resize(ROOM, 0)?;
    bytes.reserve(4)?;
    Ok(bytes)
}

fn add(bytes: &mut Vec<u8>, line: &[u8]) -> Result<(), AllocError>
    requires mark_fits { vec_len bytes.old + 4 ≤ vec_capacity bytes.old }
    ensures ok { OnOk result (bytes.new.items ≡ bytes.old.items ++ 43 ∷ line.now ++ 10 ∷ []) }
    ensures err { OnErr result (bytes.new.items ≡ bytes.old.items) }
    ensures mark_fits { vec_len bytes.new + 4 ≤ vec_capacity bytes.new }
{
    let len = bytes.len();
    if let Err(error) = extend(bytes, line) {
        bytes.truncate(len);
        return Err(error);
    }
    Ok(())
}

fn extend(bytes: &mut Vec<u8>, line: &[u8]) -> Result<(), AllocError>
    ensures ok { OnOk result (bytes.new.items ≡ bytes.old.items ++ 43 ∷ line.now ++ 10 ∷ []) }
    ensures err { OnErr result (take (length bytes.old.items) bytes.new.items ≡ bytes.old.items) }
    ensures mark_fits { OnOk result (vec_len bytes.new + 4 ≤ vec_capacity bytes.new) }
    ensures capacity { vec_capacity bytes.old ≤ vec_capacity bytes.new }
{
    bytes.reserve(line.len() + 6)?;
    bytes.extend_from_slice(&[MARK])?;
    bytes.extend_from_slice(line)?;
    bytes.extend_from_slice(&[NEWLINE])
}

/// Writes the header into its room, and a shut mark after the lines.
fn seal(bytes: &mut Vec<u8>, head: &[u8; 32])
    requires room { 75 ≤ length bytes.old.items }
    requires mark_fits { vec_len bytes.old + 4 ≤ vec_capacity bytes.old }
    ensures sealed { bytes.new.items ≡ sealed head.now (drop 75 bytes.old.items) }
    ensures capacity { vec_capacity bytes.old ≤ vec_capacity bytes.new }
{
    let size = bytes.len() - ROOM;
    put_header(bytes, size, head);
    let _fits = bytes.extend_from_slice(SHUT);
}

/// Writes the lines as a batch after the shut mark at `end`, and then opens the mark.
fn write<D: Disk>(bytes: &mut Vec<u8>, disk: &mut D, end: usize, head: &[u8; 32]) -> io::Result<()>
    requires room { 75 ≤ length bytes.old.items }
    requires mark_fits { vec_len bytes.old + 4 ≤ vec_capacity bytes.old }
    requires durable { Only (D.Disk.seen disk.old) (D.Disk.may_leave disk.old) }
    requires usable { IsTrue (D.Disk.is_usable disk.old) }
    requires fits { end + 4 < 2 ^ 64 }
    ensures len { length bytes.new.items ≡ length bytes.old.items }
    ensures lines { drop 75 bytes.new.items ≡ drop 75 bytes.old.items }
    ensures mark_fits { vec_len bytes.new + 4 ≤ vec_capacity bytes.new }
    ensures file { OnOk result (Appends (D.Disk.seen disk.old) end (sealed head.now (drop 75 bytes.old.items)) (D.Disk.seen disk.new)) }
    ensures any_moment { AppendsAtAnyMoment (D.Disk.seen disk.old) end (sealed head.now (drop 75 bytes.old.items)) (D.Disk.may_leave disk.new) }
    ensures durable { OnOk result (Only (D.Disk.seen disk.new) (D.Disk.may_leave disk.new)) }
    ensures usable { OnOk result (IsTrue (D.Disk.is_usable disk.new)) }
    ensures clean { D.Disk.is_clean disk.new ≡ D.Disk.is_clean disk.old }
    ensures failed { IfErr result (λ _. MoreFaults (D.Disk.faults disk.old) (D.Disk.faults disk.new)) }
{
    let len = bytes.len();
    seal(bytes, head);
    let written = write_batch(disk, end, bytes);
    bytes.truncate(len);
    written
}
