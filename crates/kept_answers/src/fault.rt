//! Why a kept stream ended before its reader did.

ghost use Rattle.std.specs.Prelude.{◌≡◌};
ghost use Rattle.kept_answers.specs.declared.fault.KeepFault.TheVariants.{NoMemory};
ghost use Rattle.kept_answers.specs.Faults.{of_disk};

use kept_batches::KeepError;
use std::alloc::AllocError;
use std::io;
use thiserror::Error;

/// Why a kept stream ended before its reader did.
#[derive(Clone, Copy, Debug, Error)]
pub enum KeepFault {
    /// The reader failed, or still had bytes after the most read calls.
    #[error("cannot read -")]
    Read,

    /// The writer failed.
    #[error("cannot write")]
    Write,

    #[error("no memory")]
    NoMemory,

    /// A new line is longer than a line may be. It is not kept.
    #[error("a line is too long")]
    LineTooLong,

    /// The reader ended within a line. That line is not kept.
    #[error("the last line has no newline")]
    Unended,

    /// A call on the disk failed.
    #[error("the disk fails: {0}")]
    Disk(io::Error),

    /// The store has the most bytes that one may have.
    #[error("the store is full")]
    Full,

    /// The store has not begun: it has no first record.
    #[error("the store has not begun")]
    NoStore,

    /// The store keeps fewer lines than the client has answers.
    #[error("the store keeps fewer lines")]
    FewerLines,

    /// The store keeps lines, and the client does not say how many answers it has.
    #[error("the store keeps lines; how many answers the client has was not said (--from)")]
    HasLines,

    /// The gate did not open when the kept lines were answered.
    #[error("stopped after the kept lines")]
    Stopped,

    /// Bytes at the end of the file that were never acknowledged could not be kept elsewhere, so they are not cut off.
    #[error("the torn end cannot be kept")]
    TornEnd,

    /// The store is damaged from this byte on. Nothing of it is changed.
    #[error("the store is damaged at byte {0}")]
    Damaged(usize),
}

impl From<AllocError> for KeepFault {
    ghost from_gives = { λ _ fault. fault ≡ NoMemory };

    fn from(_error: AllocError) -> Self {
        KeepFault::NoMemory
    }
}

impl From<KeepError> for KeepFault {
    ghost from_gives = { λ error fault. fault ≡ of_disk error };

    fn from(error: KeepError) -> Self {
        match error {
            KeepError::Memory => KeepFault::NoMemory,
            KeepError::Disk(cause) => KeepFault::Disk(cause),
            KeepError::Full => KeepFault::Full,
            KeepError::Damaged(at) => KeepFault::Damaged(at),
        }
    }
}
