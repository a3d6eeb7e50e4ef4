ghost use Rattle.std.specs.Prelude.{◌≡◌};
ghost use Rattle.kept_lines.specs.declared.error.KeepError.TheVariants.{Memory, Disk};

use std::alloc::AllocError;
use std::io;
use thiserror::Error;

/// Why lines were not read.
#[derive(Clone, Copy, Debug, Error)]
pub enum KeepError {
    #[error("out of memory")]
    Memory,
    /// A call on the disk has failed.
    #[error("{0}")]
    Disk(io::Error),
    /// The file has a line that is longer than the caller's limit.
    #[error("a line of the file is too long")]
    TooLong,
    /// What comes after the lines of the file, from this byte on, is neither nothing nor a closed mark with at most the bytes of a batch.
    #[error("the file is damaged at byte {0}")]
    Damaged(usize),
}

impl From<AllocError> for KeepError {
    ghost from_gives = { λ _ e. e ≡ Memory };

    fn from(_: AllocError) -> Self {
        KeepError::Memory
    }
}

impl From<io::Error> for KeepError {
    ghost from_gives = { λ error e. e ≡ Disk error };

    fn from(error: io::Error) -> Self {
        KeepError::Disk(error)
    }
}
