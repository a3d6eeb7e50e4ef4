//! Files that may be missing, and the identity of files.

ghost use Rattle.std.specs.Prelude.{◌≡◌, IfErr};

use command_line::{Fault, file_path, open_given, read_start};
use std::fs::{self, File, Metadata};
use std::io::{self, ErrorKind};
use std::os::unix::fs::MetadataExt;

/// The identity of a file: two names lead to the same file if and only if device and inode are the same.
#[derive(Clone, Copy, PartialEq, Eq)]
pub struct FileId {
    device: u64,
    inode: u64,
}

impl FileId {
    /// Returns the identity of the file that has this metadata.
    pub fn of(metadata: &Metadata) -> FileId {
        FileId {
            device: metadata.dev(),
            inode: metadata.ino(),
        }
    }
}

/// An open file and its identity.
#[derive(Drop)]
pub struct KnownFile {
    pub file: File,
    pub id: FileId,
}

/// Identifies an open file.
pub fn known(file: File) -> io::Result<KnownFile> {
    let id = FileId::of(&file.metadata()?);
    Ok(KnownFile { file, id })
}

// Returns the file, or `None` if it was not opened for another reason than memory.
fn if_opened<T>(opened: io::Result<T>) -> Result<Option<T>, Fault<'static>>
    ensures { IfErr result (λ fault. fault ≡ Fault.NoMemory) }
{
    match opened {
        Ok(file) => Ok(Some(file)),
        Err(error) => match error.kind() {
            ErrorKind::OutOfMemory => Err(Fault::NoMemory),
            _ => Ok(None),
        },
    }
}

/// The file of this path, or standard input for `-`, where it can be opened.
pub fn open_file(rt: &HostRuntime, path: &str) -> Result<Option<File>, Fault<'static>>
    ensures { IfErr result (λ fault. fault ≡ Fault.NoMemory) }
{
    if_opened(fs::open(rt, file_path(path)))
}

/// Opens the file of this path, or standard input for `-`, and identifies it. `None` if it cannot be opened.
pub fn open_known(rt: &HostRuntime, path: &str) -> Result<Option<KnownFile>, Fault<'static>>
    ensures { IfErr result (λ fault. fault ≡ Fault.NoMemory) }
{
    match if_opened(fs::open(rt, file_path(path)))? {
        Some(file) => if_opened(known(file)),
        None => Ok(None),
    }
}

/// Reads the start of the configuration of this path, as `command_line::read_config` does, and identifies its file.
pub fn read_known_config<'a>(
    rt: &HostRuntime,
    path: &'a str,
) -> Result<(Vec<u8>, FileId), Fault<'a>> {
    let file = open_given(rt, path)?;
    let Some(KnownFile { file, id }) = if_opened(known(file))? else {
        return Err(Fault::CannotRead { path });
    };
    Ok((read_start(rt.alloc(), file, path)?, id))
}
