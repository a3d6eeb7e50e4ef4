//! The command `keep`: answers lines as `script` does, each after it is on the disk.

ghost use Rattle.kept_batches.specs.Text.{IsLine};

use crate::opening::{is_regular, open_store, tell_unopened};
use crate::reading::{open_begun, tell_unread};
use crate::words::{KeepAsked, keep_asked};
use command_line::{
    Arguments, Fault, Input, Output, Progress, Work, read_file_start, tell_unread_file,
};
use kept_answers::{KeepFault, Watch};
use kept_house::{Kept, StoreFault, keep_house};
use line_causes::StreamWithCauses;
use line_streams::{LineStream, Stream};
use request_lines::Device;
use sqlite_disk::Start;
use sqlite_std_file::Wary;
use std::cell::Cell;
use std::fs::{self, OpenOptions};
use std::io::{self, ErrorKind, Write};
use std::os::unix::fs::OpenOptionsExt;

/// Shows how far the lines of the store are answered again, and keeps what is cut off its end.
#[derive(Drop)]
struct Restart<'a> {
    rt: &'a HostRuntime,
    /// The store's path.
    store: &'a str,
    progress: Progress<'a>,
    is_answering: bool,
}

/// Adds bytes to the file `torn` of the store, which only its owner may read and write, and has them and its name on the disk.
fn keep_torn(rt: &HostRuntime, store: &str, bytes: &[u8]) -> io::Result<()> {
    let path = format!(in rt.alloc(); "{store}/torn")?;
    if fs::exists(rt, path.as_str())? && !is_regular(rt, path.as_str())? {
        return Err(ErrorKind::Unsupported.into());
    }
    let mut file = OpenOptions::new()
        .append(true)
        .create(true)
        .mode(0o600)
        .open(rt, path.as_str())?;
    file.write_all(bytes)?;
    file.sync_all()?;
    fs::File::open(rt, store)?.sync_all()
}

/// Prints why bytes are not added to the file `torn` of the store.
fn tell_not_kept(rt: &HostRuntime, store: &str, cause: io::Error) {
    let _ = match cause.kind() {
        ErrorKind::OutOfMemory => eprintln!(rt; "clear: no memory"),
        ErrorKind::Unsupported => eprintln!(rt; "clear: {store}: torn is no regular file"),
        _ => eprintln!(rt; "clear: {store}: cannot write torn: {cause}"),
    };
}

impl Watch for Restart<'_> {
    fn counted(&mut self, bytes: usize) {
        self.progress.add(1, bytes as u64);
    }

    fn answered(&mut self, bytes: usize) {
        if !self.is_answering {
            self.is_answering = true;
            self.progress.begin(Work::Answered);
        }
        self.progress.add(1, bytes as u64);
    }

    fn torn(&mut self, at: usize, bytes: &[u8]) -> bool {
        let (store, count) = (self.store, bytes.len());
        match keep_torn(self.rt, store, bytes) {
            Ok(()) => {
                let _ = eprintln!(self.rt;
                    "clear: {store}: {count} bytes from byte {at} on were never acknowledged; they are cut off, and added to torn"
                );
                true
            }
            Err(cause) => {
                tell_not_kept(self.rt, store, cause);
                false
            }
        }
    }
}

/// Prints what ended the house early, unless the reader of the output has gone. `unread` is why standard input was not read.
fn tell_ended(
    rt: &HostRuntime,
    is_gone: &Cell<bool>,
    unread: Option<io::Error>,
    store: &str,
    fault: StoreFault,
) -> u8 {
    if is_gone.get() {
        return 1;
    }
    if let (StoreFault::Keep(KeepFault::Read), Some(cause)) = (fault, unread) {
        return tell_unread_file(rt, "-", cause);
    }
    let _ = match fault {
        StoreFault::Keep(
            KeepFault::Read
            | KeepFault::Write
            | KeepFault::NoMemory
            | KeepFault::LineTooLong
            | KeepFault::Unended,
        )
        | StoreFault::Config(_) => eprintln!(rt; "clear: {fault}"),
        StoreFault::OtherConfig(_) => eprintln!(rt;
            "clear: {store}: {fault}; clear configure prints the line that changes it"
        ),
        StoreFault::Keep(_)
        | StoreFault::LaterFormat
        | StoreFault::LaterLines(_)
        | StoreFault::NoStore => { eprintln!(rt; "clear: {store}: {fault}") }
    };
    1
}

/// Keeps and answers standard input, by an answerer `A`, over a store whose file held what `S` says.
fn keep_input<A: LineStream, S: Start>(
    rt: &HostRuntime,
    program: &'static str,
    config: &[u8],
    asked: KeepAsked<'_>,
    mut progress: Progress<'_>,
    start: S,
) -> u8
    requires { IsLine program.now }
{
    let disk = match open_store(rt, asked.store, start) {
        Ok(disk) => disk,
        Err(fault) => return tell_unopened(rt, asked.store, fault),
    };
    let is_gone = Cell::new(false);
    let unread = Cell::new(None);
    let mut reader = Device::new(Input::new(rt.stdin(), &unread));
    let mut writer = Device::new(Output::new(rt.stdout(), &is_gone));
    progress.begin(Work::Counted);
    let mut restart = Restart {
        rt,
        store: asked.store,
        progress,
        is_answering: false,
    };
    let Kept { disk: _, result } = keep_house::<A, _, _, _, _>(
        rt.alloc(),
        disk,
        program,
        config,
        asked.config.is_some(),
        asked.from,
        &mut reader,
        &mut writer,
        &mut restart,
    );
    match result {
        Ok(()) => 0,
        Err(fault) => tell_ended(rt, &is_gone, unread.get(), asked.store, fault),
    }
}

/// Keeps and answers standard input over a store that may be there, with causes if they are asked for.
fn keep_asked_input(
    rt: &HostRuntime,
    program: &'static str,
    config: &[u8],
    asked: KeepAsked<'_>,
    progress: Progress<'_>,
) -> u8
    requires { IsLine program.now }
{
    if asked.causes {
        keep_input::<StreamWithCauses, _>(rt, program, config, asked, progress, Wary)
    } else {
        keep_input::<Stream, _>(rt, program, config, asked, progress, Wary)
    }
}

/// Keeps and answers standard input, and returns the exit status.
pub fn perform(
    rt: &HostRuntime,
    program: &'static str,
    arguments: &Arguments<'_>,
) -> Result<u8, Fault<'static>>
    requires { IsLine program.now }
{
    let asked = keep_asked(arguments)?;
    let progress = Progress::of(rt, arguments)?;
    match asked.config {
        Some(path) => {
            let config = match read_file_start(rt, path) {
                Ok(config) => config,
                Err(cause) => return Ok(tell_unread_file(rt, path, cause)),
            };
            Ok(keep_asked_input(rt, program, config.as_slice(), asked, progress))
        }
        None => match open_begun(rt, asked.store) {
            Ok((_reader, config)) => Ok(keep_asked_input(
                rt,
                program,
                config.as_slice(),
                asked,
                progress,
            )),
            Err(fault) => Ok(tell_unread(rt, false, asked.store, fault)),
        },
    }
}
