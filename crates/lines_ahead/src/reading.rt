//! The lines of some bytes, read in order.

ghost use Rattle.std.specs.Prelude.{◌≡◌, ◌+◌, ◌≤◌, length, All, IfSome};
ghost use Rattle.lines_ahead.specs.ReadLines.{AreRead, IsRead, line_at};
ghost use Rattle.request_lines.specs.Script.{command_in};

use crate::batches::Batch;
use crate::read_batch::{ReadBatch, ReadLine};
use cdr_checks::Command;
use ocpi_types::{Config, Refusal};
use request_lines::{LineRoom, command_of, split_line};
use std::alloc::Global;

/// Returns the command of a line, or why it is refused before a house is asked; `None` if an allocation fails.
fn read_line(
    alloc: Global,
    room: &mut LineRoom,
    config: &Config,
    line: &[u8],
) -> Option<Result<Command, Refusal>>
    ensures { IfSome result (λ command. command_in config.now line.now ≡ command) }
{
    match command_of(alloc, room, config, line) {
        Err(Refusal::NoMemory) => None,
        command => Some(command),
    }
}

/// Returns the line that begins at this place, before the end, if a newline ends it, without its newline.
#[tactic(auto, using(crate::proofs::AheadLemmas::line_from))]
fn line_from(bytes: &[u8], start: usize, end: usize) -> Option<&[u8]>
    ensures line { IfSome result (λ line. line_at bytes.now start (length line.now) ≡ line.now) }
    ensures bound { IfSome result (λ line. start + (length line.now + 1) ≤ length bytes.now) }
{
    if start >= end || end > bytes.len() {
        return None;
    }
    match split_line(&bytes[start..]) {
        Some((line, _)) => Some(line),
        None => None,
    }
}

/// Reads the lines that newlines end, from a place to an end, in order, until an allocation fails.
fn read_lines(
    alloc: Global,
    room: &mut LineRoom,
    config: &Config,
    bytes: &[u8],
    from: usize,
    end: usize,
) -> Vec<ReadLine>
    ensures { All (IsRead config.now bytes.now) result.items }
{
    let mut lines = Vec::new(alloc);
    let mut start = from;
    while let Some(line) = line_from(bytes, start, end) {
        let Some(command) = read_line(alloc, room, config, line) else {
            return lines;
        };
        let length = line.len();
        if lines
            .push(ReadLine {
                start,
                length,
                command,
            })
            .is_err()
        {
            return lines;
        }
        start += length + 1;
    }
    lines
}

/// Reads the lines of a batch that newlines end, in order, until an allocation fails.
pub fn read_batch(alloc: Global, config: &Config, batch: Batch) -> ReadBatch
    ensures { AreRead config.now result }
{
    let Batch {
        bytes,
        start,
        end,
        tariffs,
    } = batch;
    let mut room = LineRoom::with_tariffs(alloc, tariffs);
    let lines = read_lines(alloc, &mut room, config, bytes.as_slice(), start, end);
    let LineRoom { room: _, tariffs } = room;
    ReadBatch {
        bytes,
        lines,
        tariffs,
    }
}
