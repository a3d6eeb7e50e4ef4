//! Why a store is not opened, or a kept house ended before its reader did.

ghost use Rattle.std.specs.Prelude.{◌≡◌};
ghost use Rattle.kept_house.specs.declared.fault.StoreFault.TheVariants.{Config, Keep};
ghost use Rattle.kept_answers.specs.declared.fault.KeepFault.TheVariants.{NoMemory};
ghost use Rattle.kept_answers.specs.Faults.{of_disk};

use kept_answers::KeepFault;
use kept_batches::KeepError;
use ocpi_json::ci_text::CiText;
use ocpi_json::name::Name;
use ocpi_types::ConfigFault;
use std::alloc::AllocError;
use std::fmt;
use thiserror::Error;

/// A word of a store's record.
#[derive(Clone, Copy)]
pub struct Word(pub CiText<36>);

impl fmt::Display for Word {
    fn fmt<W: fmt::Write>(&self, f: &mut fmt::Formatter<W>) -> fmt::Result {
        f.write_str(self.0.as_str())
    }
}

impl fmt::Debug for Word {
    fn fmt<W: fmt::Write>(&self, f: &mut fmt::Formatter<W>) -> fmt::Result {
        f.write_str(self.0.as_str())
    }
}

/// Why a store is not opened, or a kept house ended before its reader did.
#[derive(Clone, Copy, Debug, Error)]
pub enum StoreFault {
    #[error("{0}")]
    Keep(KeepFault),

    /// The given configuration does not read.
    #[error("{0}")]
    Config(ConfigFault),

    /// Another configuration than the given one is in force after the kept lines: this is the first member that differs.
    #[error("another configuration: {}", .0.key())]
    OtherConfig(Name),

    /// The store has a later format than this program knows.
    #[error("a later format")]
    LaterFormat,

    /// The lines of the store may be what this program does not know, by this word of its record.
    #[error("a later program: its lines may have \"{0}\"")]
    LaterLines(Word),

    /// The file does not begin with the record of a store.
    #[error("no store")]
    NoStore,
}

impl From<KeepFault> for StoreFault {
    ghost from_gives = { λ cause fault. fault ≡ Keep cause };

    fn from(cause: KeepFault) -> Self {
        StoreFault::Keep(cause)
    }
}

impl From<KeepError> for StoreFault {
    ghost from_gives = { λ error fault. fault ≡ Keep (of_disk error) };

    fn from(error: KeepError) -> Self {
        StoreFault::Keep(KeepFault::from(error))
    }
}

impl From<ConfigFault> for StoreFault {
    ghost from_gives = { λ cause fault. fault ≡ Config cause };

    fn from(cause: ConfigFault) -> Self {
        StoreFault::Config(cause)
    }
}

impl From<AllocError> for StoreFault {
    ghost from_gives = { λ _ fault. fault ≡ Keep NoMemory };

    fn from(_error: AllocError) -> Self {
        StoreFault::Keep(KeepFault::NoMemory)
    }
}
