//! The command `stream`: answers lines as `script` does, and lines that change the configuration.

use crate::words::only_argument;
use command_line::{
    Arguments, CommandOption, Errors, Fault, Input, Output, read_file_start, tell, tell_unread_file,
};
use line_causes::StreamWithCauses;
use line_streams::{LineStream, Stream, run_stream_together};
use ocpi_types::Config;
use request_lines::{Device, Sink, Source};
use std::alloc::Global;
use std::cell::Cell;
use std::mem;

/// Answers the lines of the reader by an answerer `A`, under the configuration of these bytes at first.
fn answer_lines_by<A: LineStream, R: Source, W: Sink>(
    alloc: Global,
    config: &[u8],
    reader: &mut R,
    writer: &mut W,
) -> Result<(), Fault<'static>> {
    let mut stream = A::under(alloc, Config::read(alloc, config)?)?;
    let answered = run_stream_together(alloc, reader, writer, &mut stream);
    // The process ends now, and the system takes its memory back at once.
    mem::forget(stream);
    answered?;
    Ok(())
}

/// Answers the lines of the reader, under the configuration of these bytes at first, with causes if they are asked for.
fn answer_lines<R: Source, W: Sink>(
    alloc: Global,
    config: &[u8],
    causes: bool,
    reader: &mut R,
    writer: &mut W,
) -> Result<(), Fault<'static>> {
    if causes {
        answer_lines_by::<StreamWithCauses, _, _>(alloc, config, reader, writer)
    } else {
        answer_lines_by::<Stream, _, _>(alloc, config, reader, writer)
    }
}

/// Answers standard input, and returns the exit status.
pub fn perform(rt: &HostRuntime, arguments: &Arguments<'_>) -> Result<u8, Fault<'static>> {
    let path = only_argument(arguments)?;
    let config = match read_file_start(rt, path) {
        Ok(config) => config,
        Err(cause) => return Ok(tell_unread_file(rt, path, cause)),
    };
    let is_gone = Cell::new(false);
    let unread = Cell::new(None);
    let mut reader = Device::new(Input::new(rt.stdin(), &unread));
    let mut writer = Device::new(Output::new(rt.stdout(), &is_gone));
    let causes = arguments.has(CommandOption::Causes);
    match answer_lines(
        rt.alloc(),
        config.as_slice(),
        causes,
        &mut reader,
        &mut writer,
    ) {
        Ok(()) => Ok(0),
        Err(fault) => {
            if let (Fault::CannotReadInput, Some(cause)) = (fault, unread.get()) {
                return Ok(tell_unread_file(rt, "-", cause));
            }
            tell(&mut Device::new(Errors::new(rt.stderr(), &is_gone)), &fault);
            Ok(fault.status())
        }
    }
}
