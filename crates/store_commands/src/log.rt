//! The command `log`: the lines that a store keeps, and their answers.

use crate::reading::{MOST_LINES, ReadingFault, StoreReader, open_begun, tell_unread};
use crate::words::{LogAsked, log_asked};
use command_line::{Arguments, Fault, Output, Progress};
use kept_house::{StoreFault, stream_under};
use line_streams::Stream;
use request_lines::{Answerer, Device, Sink, write_all};
use std::alloc::Global;
use std::cell::Cell;

/// Writes the line that was read last.
fn write_line<W: Sink>(reader: &StoreReader, writer: &mut W) -> Result<(), ReadingFault> {
    for part in [reader.line(), b"\n".as_slice()] {
        if write_all(writer, part).is_err() {
            return Err(ReadingFault::Write);
        }
    }
    Ok(())
}

/// Writes each line.
fn write_lines<W: Sink>(
    reader: &mut StoreReader,
    progress: &mut Progress<'_>,
    writer: &mut W,
) -> Result<(), ReadingFault> {
    for _ in 0..MOST_LINES {
        if !reader.next_line()? {
            return Ok(());
        }
        progress.add(1, reader.line().len() as u64);
        write_line(reader, writer)?;
    }
    Err(ReadingFault::Store(StoreFault::NoStore))
}

/// Writes each line and its answer.
fn write_answers<W: Sink, A: Answerer>(
    alloc: Global,
    reader: &mut StoreReader,
    progress: &mut Progress<'_>,
    writer: &mut W,
    answerer: &mut A,
) -> Result<(), ReadingFault> {
    for _ in 0..MOST_LINES {
        if !reader.next_line()? {
            return Ok(());
        }
        progress.add(1, reader.line().len() as u64);
        write_line(reader, writer)?;
        let answer = answerer.answer(alloc, reader.line())?;
        if write_all(writer, answer.as_slice()).is_err() {
            return Err(ReadingFault::Write);
        }
    }
    Err(ReadingFault::Store(StoreFault::NoStore))
}

/// Writes each line and its answer by a stream that begins under the store's configuration.
fn write_answered<W: Sink>(
    alloc: Global,
    reader: &mut StoreReader,
    text: &[u8],
    progress: &mut Progress<'_>,
    writer: &mut W,
) -> Result<(), ReadingFault> {
    let mut stream: Stream = stream_under(alloc, text)?;
    write_answers(alloc, reader, progress, writer, &mut stream)
}

/// Writes the lines of the store, with their answers if these are asked for.
fn write_asked<W: Sink>(
    rt: &HostRuntime,
    asked: LogAsked<'_>,
    progress: &mut Progress<'_>,
    writer: &mut W,
) -> Result<(), ReadingFault> {
    let (mut reader, config) = open_begun(rt, asked.store)?;
    progress.expect(reader.file_bytes()?);
    if asked.answers {
        write_answered(rt.alloc(), &mut reader, config.as_slice(), progress, writer)
    } else {
        write_lines(&mut reader, progress, writer)
    }
}

/// Prints the lines of the store, with their answers if these are asked for, and returns the exit status.
pub fn perform(rt: &HostRuntime, arguments: &Arguments<'_>) -> Result<u8, Fault<'static>> {
    let asked = log_asked(arguments)?;
    let mut progress = Progress::of(rt, arguments)?;
    let is_gone = Cell::new(false);
    let mut writer = Device::new(Output::new(rt.stdout(), &is_gone));
    match write_asked(rt, asked, &mut progress, &mut writer) {
        Ok(()) => Ok(0),
        Err(fault) => Ok(tell_unread(rt, is_gone.get(), asked.store, fault)),
    }
}
