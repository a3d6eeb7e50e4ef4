use thiserror::Error;

/// How a script ended before its reader did. Its text is that of the program's fault.
#[derive(Clone, Copy, Debug, PartialEq, Eq, Error)]
pub enum ScriptFault {
    /// The reader failed, or still had bytes after the most read calls.
    #[error("cannot read -")]
    Read,

    /// The writer failed after so many bytes.
    #[error("cannot write")]
    Write { written: u128 },

    #[error("no memory")]
    NoMemory,

    /// The line of this number, from 1, is longer than a line may be.
    #[error("line {line} is too long")]
    LineTooLong { line: u128 },
}

/// The lines and bytes that a script has read to its end.
#[derive(Clone, Copy, PartialEq, Eq)]
pub struct Count {
    pub lines: u128,
    pub bytes: u128,
}

/// A read or write call has failed.
#[derive(Clone, Copy, Debug, PartialEq, Eq, Error)]
#[error("cannot read or write")]
pub struct Failed;
