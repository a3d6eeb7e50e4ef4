//! The folder of a store.

ghost use Rattle.std.specs.Prelude.{false, IfOk};
ghost use Rattle.sqlite_std_file.specs.File.{IsFresh};

use crate::first_format::is_first_format;
use sqlite_disk::{Files, Start};
use sqlite_std_file::{FileFrom, OpenError};
use std::alloc::AllocError;
use std::fs::{self, OpenOptions};
use std::io::{self, ErrorKind};
use std::os::unix::fs::OpenOptionsExt;
use std::path::Path;

/// The path of the file of a store's lines.
pub fn lines_path(rt: &HostRuntime, store: &str) -> Result<String, AllocError> {
    format!(in rt.alloc(); "{store}/requests")
}

/// Makes the folder of a store if there is none, and has its name on the disk.
fn make_folder(rt: &HostRuntime, store: &str) -> Result<(), OpenError> {
    match fs::create_dir(rt, store) {
        Err(error) if error.kind() != ErrorKind::AlreadyExists => return Err(error.into()),
        _ => {}
    }
    let above = match Path::new(store).parent() {
        Some(above) if !above.as_str().is_empty() => above.as_str(),
        _ => ".",
    };
    fs::File::open(rt, above)?.sync_all()?;
    Ok(())
}

/// Whether a regular file has this path, or a link to one.
pub fn is_regular(rt: &HostRuntime, path: &str) -> io::Result<bool> {
    Ok(fs::metadata(rt, path)?.is_file())
}

/// Makes the file of a store's lines if there is none, which only its owner may read and write.
fn make_file(rt: &HostRuntime, path: &str) -> io::Result<()> {
    match OpenOptions::new()
        .read(true)
        .write(true)
        .create_new(true)
        .mode(0o600)
        .open(rt, path)
    {
        Err(error) if error.kind() != ErrorKind::AlreadyExists => Err(error),
        _ => Ok(()),
    }
}

/// Why the file of a store is not opened.
#[derive(Clone, Copy)]
pub enum OpeningFault {
    Open(OpenError),
    /// It is a folder, a FIFO or another file that is not regular.
    NoRegularFile,
    /// It has the format before this one.
    FirstFormat,
    /// It has to be a store of format 1, and is none.
    NoFirstFormat,
    /// It has to be a new store, and there is one.
    NotEmpty,
}

impl From<OpenError> for OpeningFault {
    fn from(error: OpenError) -> Self {
        OpeningFault::Open(error)
    }
}

impl From<io::Error> for OpeningFault {
    fn from(error: io::Error) -> Self {
        OpeningFault::Open(OpenError::Io(error))
    }
}

impl From<AllocError> for OpeningFault {
    fn from(_error: AllocError) -> Self {
        OpeningFault::Open(OpenError::OutOfMemory)
    }
}

/// Opens the file at this path, alone on this machine.
fn open_alone<S: Start>(rt: &HostRuntime, path: &str, start: S) -> Result<FileFrom<S>, OpeningFault>
    ensures { IfOk result (λ disk. IsFresh false disk) }
{
    let Files { db, log: _ } = sqlite_std_file::open(rt, path, start)?;
    Ok(db)
}

/// Opens the file of a store's lines, alone on this machine, and makes the folder and the file if they are missing.
pub fn open_store<S: Start>(
    rt: &HostRuntime,
    store: &str,
    start: S,
) -> Result<FileFrom<S>, OpeningFault>
    ensures { IfOk result (λ disk. IsFresh false disk) }
{
    make_folder(rt, store)?;
    let path = lines_path(rt, store)?;
    make_file(rt, path.as_str())?;
    if !is_regular(rt, path.as_str())? {
        return Err(OpeningFault::NoRegularFile);
    }
    if is_first_format(&fs::File::open(rt, path.as_str())?)? {
        return Err(OpeningFault::FirstFormat);
    }
    open_alone(rt, path.as_str(), start)
}

/// Opens a file of a new store, alone on this machine, in which the lines are before they are all there. `put_in_place` gives it the name of
/// the file of a store's lines. What an earlier call has left there is removed.
pub fn open_new<S: Start>(
    rt: &HostRuntime,
    store: &str,
    start: S,
) -> Result<FileFrom<S>, OpeningFault>
    ensures { IfOk result (λ disk. IsFresh false disk) }
{
    make_folder(rt, store)?;
    if fs::exists(rt, lines_path(rt, store)?.as_str())? {
        return Err(OpeningFault::NotEmpty);
    }
    let path = new_path(rt, store)?;
    if fs::exists(rt, path.as_str())? {
        fs::remove_file(rt, path.as_str())?;
    }
    make_file(rt, path.as_str())?;
    open_alone(rt, path.as_str(), start)
}

/// The path of the file of a new store's lines before they are all there.
fn new_path(rt: &HostRuntime, store: &str) -> Result<String, AllocError> {
    format!(in rt.alloc(); "{store}/requests.new")
}

/// Gives the file of a new store, which has all lines and is closed, its name, and has that on the disk.
pub fn put_in_place(rt: &HostRuntime, store: &str) -> io::Result<()> {
    let path = new_path(rt, store)?;
    fs::rename(rt, path.as_str(), lines_path(rt, store)?.as_str())?;
    let log = format!(in rt.alloc(); "{store}/requests.new-wal")?;
    if fs::exists(rt, log.as_str())? {
        fs::remove_file(rt, log.as_str())?;
    }
    fs::File::open(rt, store)?.sync_all()
}

/// Opens the file of the lines of a store of format 1, which is there, alone on this machine.
pub fn open_first_format<S: Start>(
    rt: &HostRuntime,
    store: &str,
    start: S,
) -> Result<FileFrom<S>, OpeningFault>
    ensures { IfOk result (λ disk. IsFresh false disk) }
{
    let path = lines_path(rt, store)?;
    if !is_regular(rt, path.as_str())? {
        return Err(OpeningFault::NoRegularFile);
    }
    if !is_first_format(&fs::File::open(rt, path.as_str())?)? {
        return Err(OpeningFault::NoFirstFormat);
    }
    open_alone(rt, path.as_str(), start)
}

/// Prints why the store is not opened, and returns the exit status.
pub fn tell_unopened(rt: &HostRuntime, store: &str, fault: OpeningFault) -> u8 {
    let _ = match fault {
        OpeningFault::NoRegularFile => {
            eprintln!(rt; "clear: {store}: requests is no regular file")
        }
        OpeningFault::FirstFormat => {
            eprintln!(rt;
                "clear: {store}: a store of format 1; clear upgrade makes a copy of this format"
            )
        }
        OpeningFault::NoFirstFormat => eprintln!(rt; "clear: {store}: no store of format 1"),
        OpeningFault::NotEmpty => eprintln!(rt; "clear: {store}: it is not empty"),
        OpeningFault::Open(OpenError::Busy) => {
            eprintln!(rt; "clear: {store}: another program has the store open")
        }
        OpeningFault::Open(OpenError::HotJournal) => {
            eprintln!(rt; "clear: {store}: something has the name requests-journal")
        }
        OpeningFault::Open(OpenError::OutOfMemory) => eprintln!(rt; "clear: no memory"),
        OpeningFault::Open(OpenError::Io(cause)) if cause.kind() == ErrorKind::OutOfMemory => {
            eprintln!(rt; "clear: no memory")
        }
        OpeningFault::Open(OpenError::Io(cause)) => {
            eprintln!(rt; "clear: {store}: cannot open: {cause}")
        }
    };
    1
}
