//! The commands `check` and `head`: how many lines a store keeps, the head after them, and whether a head is that of its first lines.

use crate::reading::{MOST_LINES, ReadingFault, StoreReader, open_begun, tell_unread};
use crate::words::{CheckAsked, HeadAsked, check_asked, head_asked};
use command_line::{Arguments, Fault, Output, Progress};
use kept_batches::next_head;
use kept_house::StoreFault;
use request_lines::{Device, Sink, write_all};
use std::alloc::{AllocError, Global};
use std::cell::Cell;

/// What is found of the lines of a store.
#[derive(Clone, Copy)]
struct Counted {
    /// How many lines come after the first record.
    kept: u64,
    /// The head after the first record and as many lines as were asked for, if it has them.
    asked: Option<[u8; 32]>,
}

/// Counts the lines that are left, and finds the head after the first `at` of them, if that is asked for. `first` is the head after the
/// record before them.
fn count_lines(
    reader: &mut StoreReader,
    progress: &mut Progress<'_>,
    first: [u8; 32],
    at: Option<u64>,
) -> Result<Counted, ReadingFault> {
    let mut head = first;
    for kept in 0..MOST_LINES {
        if !reader.next_line()? {
            let asked = match at {
                Some(count) if count <= kept => Some(head),
                Some(_) | None => None,
            };
            return Ok(Counted { kept, asked });
        }
        progress.add(1, reader.line().len() as u64);
        if at.is_some_and(|count| kept < count) {
            head = next_head(&head, reader.line());
        }
    }
    Err(ReadingFault::Store(StoreFault::NoStore))
}

/// The store at this path after its last line, and what was found of its lines.
fn count_of(
    rt: &HostRuntime,
    store: &str,
    at: Option<u64>,
    progress: &mut Progress<'_>,
) -> Result<(StoreReader, Counted), ReadingFault> {
    let (mut reader, _) = open_begun(rt, store)?;
    progress.expect(reader.file_bytes()?);
    let first = next_head(&kept_batches::first_head(), reader.line());
    let counted = count_lines(&mut reader, progress, first, at)?;
    Ok((reader, counted))
}

/// Returns the line that tells of a whole store.
fn checked_text(
    alloc: Global,
    reader: &StoreReader,
    counted: Counted,
) -> Result<String, AllocError> {
    let head = hex::encode(alloc, reader.head().as_slice())?;
    format!(in alloc;
        "{{\"kept\":{},\"head\":\"{}\",\"batches\":{},\"torn\":{}}}\n",
        counted.kept,
        head.as_str(),
        reader.batches(),
        reader.is_torn()
    )
}

/// Returns the line that tells the head after so many lines.
fn head_text(alloc: Global, at: u64, head: [u8; 32]) -> Result<String, AllocError> {
    let head = hex::encode(alloc, head.as_slice())?;
    format!(in alloc; "{{\"kept\":{at},\"head\":\"{}\"}}\n", head.as_str())
}

fn write<W: Sink>(writer: &mut W, text: &str) -> Result<(), ReadingFault> {
    match write_all(writer, text.as_bytes()) {
        Ok(()) => Ok(()),
        Err(_) => Err(ReadingFault::Write),
    }
}

/// Writes how many lines the store at this path keeps, the head after them, in how many batches they are, and whether bytes that were
/// never acknowledged come after them. Returns the head after as many lines as were asked for, if it has them.
fn write_checked<W: Sink>(
    rt: &HostRuntime,
    asked: CheckAsked<'_>,
    progress: &mut Progress<'_>,
    writer: &mut W,
) -> Result<Option<[u8; 32]>, ReadingFault> {
    let (reader, counted) = count_of(rt, asked.store, asked.at, progress)?;
    write(writer, checked_text(rt.alloc(), &reader, counted)?.as_str())?;
    Ok(counted.asked)
}

/// Writes the head after the first lines of the store. Returns whether it has as many.
fn write_head<W: Sink>(
    rt: &HostRuntime,
    asked: HeadAsked<'_>,
    progress: &mut Progress<'_>,
    writer: &mut W,
) -> Result<bool, ReadingFault> {
    let (reader, counted) = count_of(rt, asked.store, asked.at, progress)?;
    let text = match (asked.at, counted.asked) {
        (None, _) => head_text(rt.alloc(), counted.kept, *reader.head())?,
        (Some(at), Some(head)) => head_text(rt.alloc(), at, head)?,
        (Some(_), None) => return Ok(false),
    };
    write(writer, text.as_str())?;
    Ok(true)
}

/// Prints that the store keeps fewer lines than are asked for, and returns the exit status.
fn tell_fewer(rt: &HostRuntime, store: &str, at: u64) -> u8 {
    let _ = eprintln!(rt; "clear: {store}: it keeps fewer than {at} lines");
    1
}

/// Returns the exit status of a check that found this head, and prints why it is not 0.
fn status_of(rt: &HostRuntime, asked: CheckAsked<'_>, found: Option<[u8; 32]>) -> u8 {
    let (Some(wanted), Some(at)) = (asked.head, asked.at) else {
        return 0;
    };
    match found {
        None => tell_fewer(rt, asked.store, at),
        Some(head) if head == wanted => 0,
        Some(_) => {
            let _ = eprintln!(rt;
                "clear: {}: the first {at} lines have another head",
                asked.store
            );
            1
        }
    }
}

/// Checks the store, and whether its first lines have a head, if that is asked; returns the exit status.
pub fn perform(rt: &HostRuntime, arguments: &Arguments<'_>) -> Result<u8, Fault<'static>> {
    let asked = check_asked(arguments)?;
    let mut progress = Progress::of(rt, arguments)?;
    let is_gone = Cell::new(false);
    let mut writer = Device::new(Output::new(rt.stdout(), &is_gone));
    match write_checked(rt, asked, &mut progress, &mut writer) {
        Ok(found) => Ok(status_of(rt, asked, found)),
        Err(fault) => Ok(tell_unread(rt, is_gone.get(), asked.store, fault)),
    }
}

/// Prints the head after the first lines of a store, and returns the exit status.
pub fn perform_head(rt: &HostRuntime, arguments: &Arguments<'_>) -> Result<u8, Fault<'static>> {
    let asked = head_asked(arguments)?;
    let mut progress = Progress::of(rt, arguments)?;
    let is_gone = Cell::new(false);
    let mut writer = Device::new(Output::new(rt.stdout(), &is_gone));
    match write_head(rt, asked, &mut progress, &mut writer) {
        Ok(true) => Ok(0),
        Ok(false) => Ok(tell_fewer(rt, asked.store, asked.at.unwrap_or(0))),
        Err(fault) => Ok(tell_unread(rt, is_gone.get(), asked.store, fault)),
    }
}
