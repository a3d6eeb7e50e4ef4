ghost use Rattle.std.specs.Prelude.{◌≡◌};
ghost use Rattle.kept_batches.specs.declared.error.KeepError.TheVariants.{Memory, Disk};

use std::alloc::AllocError;
use std::io;
use thiserror::Error;

/// Why lines were not read, or not kept.
#[derive(Clone, Copy, Debug, Error)]
pub enum KeepError {
    #[error("out of memory")]
    Memory,
    /// A call on the disk has failed, as on a full one.
    #[error("{0}")]
    Disk(io::Error),
    /// The file has 2^60 bytes, or a batch more than 2^24.
    #[error("too large")]
    Full,
    /// From this byte on the file is neither what was written nor what a crash may leave of it.
    #[error("damaged at byte {0}")]
    Damaged(usize),
}

impl From<AllocError> for KeepError {
    ghost from_gives = { λ _ e. e ≡ Memory };

    fn from(_: AllocError) -> Self {
        KeepError::Memory
    }
}

impl From<io::Error> for KeepError {
    ghost from_gives = { λ error e. e ≡ Disk error };

    fn from(error: io::Error) -> Self {
        KeepError::Disk(error)
    }
}
