use kept_batches::KeepError;
use std::alloc::AllocError;
use std::io;
use thiserror::Error;

/// Why a trial failed.
#[derive(Clone, Copy, Debug, Error)]
pub enum Failure {
    #[error("out of memory")]
    Memory,
    #[error("{0}")]
    Disk(io::Error),
    #[error("{0}")]
    Keep(KeepError),
    /// The lines are not those that were expected.
    #[error("other lines than expected")]
    OtherLines,
    /// The file is not that of its lines, or a file that is refused was changed.
    #[error("another file than expected")]
    OtherFile,
    #[error("another error than expected")]
    OtherError,
}

impl From<AllocError> for Failure {
    fn from(_: AllocError) -> Self {
        Failure::Memory
    }
}

impl From<io::Error> for Failure {
    fn from(error: io::Error) -> Self {
        Failure::Disk(error)
    }
}

impl From<KeepError> for Failure {
    fn from(error: KeepError) -> Self {
        Failure::Keep(error)
    }
}
