//! A house that threads share: lines answered by one pass of it, what its check says of changed values, a call that is paused
//! while another is answered, and workers that answer the same lines often.

mod caller;
mod changes;
mod ending;
mod growths;
mod missing_pass;
mod one_pass;
mod opening;
mod paused;
mod performing;
mod workers;

use crate::check_fault::CheckFault;
use crate::files::config_in;
use crate::growths::Trial;
use command_line::{Fault, open_file};
use ending::Ending;
use ocpi_types::{Config, TryCopy};
use opening::with_house;
use paused::waypoint_of;
use performing::{Next, Work};
use request_lines::{Device, Sink, Source};
use std::alloc::Global;
use std::io;
use std::io::Read;
use std::sync::Wait;
use std::thread::Threads;

/// Answers the lines of the reader by one pass of a new house, and has its calls certified.
pub fn answer<R: Threads + Wait + Sync, S: Source, W: Sink>(
    rt: &HostRuntime,
    threads: &R,
    config: Config,
    is_again: bool,
    reader: &mut S,
    writer: &mut W,
) -> Result<(), CheckFault<'static>> {
    let next = Next::Finish(Ending::Lines { is_again });
    let work = Work::Lines { is_again, next };
    with_house(rt, threads, config, work, reader, writer)
}

// Does work that reads no lines by a new house.
fn do_by_house<R: Threads + Wait + Sync>(
    rt: &HostRuntime,
    threads: &R,
    config: Config,
    work: Work<'_>,
) -> Result<(), CheckFault<'static>> {
    let mut reader = Device::new(rt.stdin());
    let mut writer = Device::new(io::sink());
    with_house(rt, threads, config, work, &mut reader, &mut writer)
}

/// Tells how a house ends without one of its passes. Then answers the lines of the reader by one pass of a new house, and tells
/// what is certified of what the house leaves behind, as it is and with one change each.
pub fn tell_changes<'a, R: Threads + Wait + Sync, S: Read + Drop>(
    rt: &HostRuntime,
    threads: &R,
    path: &'a str,
    reader: S,
) -> Result<(), CheckFault<'a>> {
    let config = config_in(rt, path)?;
    let other = config.copy(rt.alloc())?;
    do_by_house(rt, threads, other, Work::MissingPass)?;
    let mut reader = Device::new(reader);
    let mut writer = Device::new(io::sink());
    let work = Work::Lines {
        is_again: false,
        next: Next::Gather,
    };
    with_house(rt, threads, config, work, &mut reader, &mut writer)
}

/// Has a pass of a new house do the last line of the trial, and perhaps once more where memory is refused, and ends the house.
pub fn try_growths<R: Threads + Wait + Sync>(
    rt: &HostRuntime,
    threads: &R,
    config: &Config,
    trial: &Trial<'_>,
    is_again: bool,
) -> Result<(), CheckFault<'static>> {
    let copy = config.copy(rt.alloc())?;
    do_by_house(rt, threads, copy, Work::Growths { trial, is_again })
}

// The bytes of the file of this path.
fn text_of<'a>(rt: &HostRuntime, alloc: Global, path: &'a str) -> Result<Vec<u8>, CheckFault<'a>> {
    let mut bytes = Vec::new(alloc);
    match open_file(rt, path)?.read_to_end(&mut bytes) {
        Ok(_) => Ok(bytes),
        Err(_) => Err(CheckFault::from(Fault::CannotRead { path })),
    }
}

/// Answers the lines of four files by a pass each: those of the first file, then those of the second, whose call is paused at the
/// waypoint of this name while those of the third are answered, and then those of the fourth. Has all calls certified.
pub fn pause<'a, R: Threads + Wait + Sync>(
    rt: &HostRuntime,
    threads: &R,
    path: &'a str,
    waypoint: &str,
    files: &[String],
) -> Result<(), CheckFault<'a>> {
    let Some(waypoint) = waypoint_of(waypoint) else {
        return Err(CheckFault::from(Fault::Usage));
    };
    let config = config_in(rt, path)?;
    do_by_house(rt, threads, config, Work::Paused { waypoint, files })
}

// The bytes of the files.
fn texts_of<'a>(
    rt: &HostRuntime,
    alloc: Global,
    files: &'a [String],
) -> Result<Vec<Vec<u8>>, CheckFault<'a>> {
    let mut texts = Vec::new(alloc);
    for file in files {
        texts.push(text_of(rt, alloc, file.as_str())?)?;
    }
    Ok(texts)
}

// Has workers answer the texts so many times.
fn answer_texts(
    rt: &HostRuntime,
    threads: &(impl Threads + Wait + Sync),
    config: &Config,
    times: usize,
    events: usize,
    texts: &[Vec<u8>],
) -> Result<(), CheckFault<'static>> {
    for _time in 0..times {
        let copy = config.copy(rt.alloc())?;
        do_by_house(rt, threads, copy, Work::Texts { texts, events })?;
    }
    Ok(())
}

/// Has workers answer the lines of the files so many times, each time by a new house, which is to have so many events.
pub fn answer_often<'a, R: Threads + Wait + Sync>(
    rt: &HostRuntime,
    threads: &R,
    path: &'a str,
    times: usize,
    events: usize,
    files: &'a [String],
) -> Result<(), CheckFault<'a>> {
    let config = config_in(rt, path)?;
    let texts = texts_of(rt, rt.alloc(), files)?;
    answer_texts(rt, threads, &config, times, events, texts.as_slice())
}
