//! Folders of the file system.

ghost use Rattle.std.specs.Prelude.{◌≡◌, ◌≢◌, ◌↔◌, ◌⊎◌, [], true, IfErr, IfOk, Ok, Err};
ghost use Rattle.clear_cli.specs.Folder.{IsNoneOf};
ghost use Rattle.clear_cli.specs.Outputs.{IsStatementName};
ghost use Rattle.clear_cli.specs.Script.{config_or_fault};

use crate::files::{FileId, KnownFile, known};
use crate::folder::Folder;
use crate::schedule_text::WriteFault;
use crate::script::read_config;
use command_line::Fault;
use request_lines::Device;
use std::fs::{self, File, OpenOptions};
use std::io::{self, Error, ErrorKind};
use std::marker::Model;

/// The folder at a path, and the recorded files, which `make` never truncates: those that the run reads and those that it has made.
#[derive(Drop)]
pub struct OutFolder<'a> {
    rt: &'a HostRuntime,
    path: &'a str,
    recorded: Vec<FileId>,
}

impl<'a> Model for OutFolder<'a> {
    ghost use Rattle.std.specs.Prelude.{List};
    ghost use Rattle.clear_cli.specs.declared.files.FileId.{FileId};

    ghost Value = { List FileId };

    ghost view = { λ folder. folder.recorded.items };
}

impl<'a> OutFolder<'a> {
    pub fn new(rt: &'a HostRuntime, path: &'a str, recorded: Vec<FileId>) -> OutFolder<'a>
        ensures { result ≡ recorded.items }
    {
        OutFolder { rt, path, recorded }
    }
}

fn is_none_of(id: FileId, recorded: &[FileId]) -> bool
    ensures { (result ≡ true) ↔ IsNoneOf id recorded.now }
{
    !recorded.contains(&id)
}

// A new file at this path.
fn create(rt: &HostRuntime, path: &str) -> io::Result<File> {
    OpenOptions::new()
        .write(true)
        .create_new(true)
        .open(rt, path)
}

// The error for a file that may not be overwritten.
fn not_overwritten() -> Error {
    Error::from(ErrorKind::InvalidInput)
}

// Opens the regular file at this path for writing, without truncation. Another kind of file is not opened: opening a pipe waits for
// its reader.
fn open_standing(rt: &HostRuntime, path: &str) -> io::Result<File> {
    if !fs::metadata(rt, path)?.is_file() {
        return Err(not_overwritten());
    }
    OpenOptions::new().write(true).open(rt, path)
}

// Truncates an open file if it is a regular file and none of the recorded ones. The metadata is that of the open file, not of its
// path, where another file may be by now.
fn truncate(file: File, recorded: &[FileId]) -> io::Result<KnownFile>
    ensures { IfOk result (λ truncated. IsNoneOf truncated.id recorded.now) }
{
    let metadata = file.metadata()?;
    let id = FileId::of(&metadata);
    if !metadata.is_file() || !is_none_of(id, recorded) {
        return Err(not_overwritten());
    }
    file.set_len(0)?;
    Ok(KnownFile { file, id })
}

// Opens an empty file at this path: a new one, or the one that stands there, truncated. A new file is none of the recorded ones, even
// if it has the inode of one that was deleted.
fn open_empty(rt: &HostRuntime, path: &str, recorded: &[FileId]) -> io::Result<KnownFile> {
    match create(rt, path) {
        Ok(file) => known(file),
        Err(error) if error.kind() == ErrorKind::AlreadyExists => {
            truncate(open_standing(rt, path)?, recorded)
        }
        Err(error) => Err(error),
    }
}

fn write_fault(error: &Error) -> WriteFault {
    match error.kind() {
        ErrorKind::OutOfMemory => WriteFault::NoMemory,
        _ => WriteFault::Write,
    }
}

// No contract says what a file is: only that each file that is made is recorded.
impl Folder for OutFolder<'_> {
    ghost use Rattle.std.specs.Prelude.{◌≡◌, ◌∷◌, ◌++◌, []};

    type File = Device<File>;

    ghost making = { record {
      makes = λ recorded _ _ recorded'. (id : _) × (recorded' ≡ recorded ++ id ∷ []);
      refuses = λ recorded _ recorded'. recorded' ≡ recorded;
    } };

    fn make(&mut self, name: &str) -> Result<Device<File>, WriteFault> {
        let folder = self.path;
        let path = format!(in self.rt.alloc(); "{folder}/{name}")?;
        self.recorded.reserve(1)?;
        match open_empty(self.rt, path.as_str(), self.recorded.as_slice()) {
            Ok(KnownFile { file, id }) => {
                self.recorded.push_reserved(id);
                Ok(Device::new(file))
            }
            Err(error) => Err(write_fault(&error)),
        }
    }
}

// Whether a statement can have this name.
fn is_statement(name: &str) -> bool
    ensures { (result ≡ true) ↔ IsStatementName name.now }
{
    match name.as_bytes().strip_prefix(b"statement-") {
        Some(rest) => rest.ends_with(b".csv"),
        None => false,
    }
}

// Whether statements stand in the folder at this path.
fn has_statements(rt: &HostRuntime, path: &str) -> io::Result<bool> {
    for entry in fs::read_dir(rt, path)? {
        match entry {
            Ok(entry) => {
                if is_statement(entry.file_name()) {
                    return Ok(true);
                }
            }
            // A name that is not UTF-8 is not the name of a statement.
            Err(error) if error.kind() == ErrorKind::InvalidFilename => {}
            Err(error) => return Err(error),
        }
    }
    Ok(false)
}

// Checks the folder at this path before a file is made in it. A folder that does not exist is no error here: each file reports it.
fn check_folder<'a>(rt: &HostRuntime, path: &'a str) -> Result<(), Fault<'a>>
    ensures named { IfOk result (λ _. path.now ≢ []) }
    ensures faults { IfErr result (λ fault. (fault ≡ Fault.NoMemory) ⊎ ((fault ≡ Fault.CannotWrite) ⊎ (fault ≡ Fault.EarlierStatements path.entry))) }
{
    if path.is_empty() {
        return Err(Fault::CannotWrite);
    }
    match has_statements(rt, path) {
        Ok(false) => Ok(()),
        Ok(true) => Err(Fault::EarlierStatements { folder: path }),
        Err(error) => match error.kind() {
            ErrorKind::NotFound | ErrorKind::NotADirectory => Ok(()),
            ErrorKind::OutOfMemory => Err(Fault::NoMemory),
            _ => Err(Fault::CannotWrite),
        },
    }
}

/// Refuses a folder into which `run` may not write.
///
/// # Errors
///
/// An error of the configuration in these bytes comes first. Then `CannotWrite` if the path is empty or the folder cannot be listed,
/// and `EarlierStatements` if the folder has a file that is named like a statement. `NoMemory` if an allocation fails.
pub fn refuse_folder<'a>(rt: &HostRuntime, config: &[u8], path: &'a str) -> Result<(), Fault<'a>>
    ensures named { IfOk result (λ _. path.now ≢ []) }
    ensures faults { IfErr result (λ fault. fault ≢ Fault.NoMemory → (config_or_fault config.now ≡ Err fault)
        ⊎ ((read : _) × (config_or_fault config.now ≡ Ok read) × ((fault ≡ Fault.CannotWrite) ⊎ (fault ≡ Fault.EarlierStatements path.entry)))) }
{
    match check_folder(rt, path) {
        Ok(()) => Ok(()),
        Err(fault) => {
            read_config(rt.alloc(), config)?;
            Err(fault)
        }
    }
}
