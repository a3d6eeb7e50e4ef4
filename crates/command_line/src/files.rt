//! Files by their paths.

ghost use Rattle.std.specs.Prelude.{◌≡◌, ◌≢◌, ◌↔◌, codes, if◌then◌else◌, take, IfErr, IfOk, IfSome};
ghost use Rattle.std.specs.IoError.{error_kind};
ghost use Rattle.std.specs.Str.{bytes_eq};

use crate::fault::Fault;
use std::alloc::Global;
use std::fs::{self, Files};
use std::io::{Error, ErrorKind, Read};

/// How many bytes of a configuration are read at most: one more than it may have.
const MOST_READ: u64 = 1_048_577;

// Why the file of this path is not read.
fn unread<'a>(error: &Error, path: &'a str) -> Fault<'a>
    ensures no_memory { (result ≡ Fault.NoMemory) ↔ (error_kind error.now ≡ ErrorKind.OutOfMemory) }
    ensures other { result ≢ Fault.NoMemory → result ≡ Fault.CannotRead path.entry }
{
    match error.kind() {
        ErrorKind::OutOfMemory => Fault::NoMemory,
        _ => Fault::CannotRead { path },
    }
}

/// The file of this path, to be read.
pub fn open_file<'a, R: Files>(rt: &R, path: &'a str) -> Result<R::File, Fault<'a>>
    ensures { IfErr result (λ fault. fault ≢ Fault.NoMemory → fault ≡ Fault.CannotRead path.entry) }
{
    match fs::open(rt, path) {
        Ok(file) => Ok(file),
        Err(error) => Err(unread(&error, path)),
    }
}

/// The file of this path, or standard input for `-`, to be read.
pub fn open_given<'a, R: Files>(rt: &R, path: &'a str) -> Result<R::File, Fault<'a>>
    ensures { IfErr result (λ fault. fault ≢ Fault.NoMemory → fault ≡ Fault.CannotRead path.entry) }
{
    match fs::open(rt, file_path(path)) {
        Ok(file) => Ok(file),
        Err(error) => Err(unread(&error, path)),
    }
}

/// The bytes of a configuration, of a longer one only one byte more than a configuration has at most. The path is that of the
/// reader's file.
pub fn read_start<'a, R: Read + Drop>(
    alloc: Global,
    reader: R,
    path: &'a str,
) -> Result<Vec<u8>, Fault<'a>>
    ensures start { IfOk result (λ file. IfSome (R.remaining reader) (λ bytes.
        file.items ≡ take 1048577 bytes)) }
    ensures fault { IfErr result (λ fault. fault ≢ Fault.NoMemory → fault ≡ Fault.CannotRead path.entry) }
{
    let mut file = Vec::new(alloc);
    match reader.take(MOST_READ).read_to_end(&mut file) {
        Ok(_) => Ok(file),
        Err(error) => Err(unread(&error, path)),
    }
}

/// The start of the configuration of this path, as `read_start` has it.
pub fn read_config<'a, R: Files + AllocGlobal>(rt: &R, path: &'a str) -> Result<Vec<u8>, Fault<'a>>
    ensures { IfErr result (λ fault. fault ≢ Fault.NoMemory → fault ≡ Fault.CannotRead path.entry) }
{
    read_start(rt.alloc(), open_file(rt, path)?, path)
}

/// Returns the path of standard input for `-`, and else the path itself.
pub fn file_path<'a>(path: &'a str) -> &'a str
    ensures { result.now ≡ (if bytes_eq path.now (codes "-") then codes "/dev/stdin" else path.now) }
{
    if path == "-" { "/dev/stdin" } else { path }
}

/// Reads the bytes of the file of this path, of a longer one only one byte more than a configuration has at most.
///
/// # Errors
///
/// Why the system does not read it.
pub fn read_file_start<R: Files + AllocGlobal>(rt: &R, path: &str) -> Result<Vec<u8>, Error> {
    let mut bytes = Vec::new(rt.alloc());
    fs::open(rt, path)?.take(MOST_READ).read_to_end(&mut bytes)?;
    Ok(bytes)
}
