//! What ends a command early.

ghost use Rattle.std.specs.Prelude.{◌≡◌};
ghost use Rattle.command_line.specs.Fault.{config_fault, exit_status, script_fault};
ghost use Rattle.command_line.specs.declared.fault.Fault.TheVariants.{NoMemory};

use ocpi_json::name::Name;
use ocpi_types::ConfigFault;
use request_lines::ScriptFault;
use std::alloc::{AllocError, AllocFailed};

/// What ends a command early.
#[derive(Clone, Copy, PartialEq, Eq)]
pub enum Fault<'a> {
    /// The command line has another form.
    Usage,

    ConfigSyntax,

    /// The first member of the configuration that is missing, of a wrong kind or out of bounds.
    ConfigMember { name: Name },

    /// The configuration has more bytes than one may have. `check_config` tells this apart from `ConfigSyntax`.
    ConfigTooLong,

    /// The configuration stops being JSON at this line and column, each from 1, as `check_config` tells.
    ConfigNoJson { line: usize, column: usize },

    CannotRead { path: &'a str },

    CannotReadInput,

    CannotWrite,

    /// Statements of an earlier run stand in the folder of a run.
    EarlierStatements { folder: &'a str },

    /// The input's line of this number, from 1, is longer than a line may be.
    LineTooLong { line: u128 },

    /// The schedule's line of this number, from 1, is the first that is no request and no step.
    ScheduleLine { line: u128 },

    /// Fewer passes came back to a house than it had made.
    FinishMissingPass,

    /// The history of a house breaks at this number, and at no smaller one.
    FinishTorn { entry: u64 },

    NoMemory,
}

impl Fault<'_> {
    /// The exit status.
    pub fn status(&self) -> u8
        ensures { result ≡ exit_status self.now }
    {
        match self {
            Fault::Usage => 2,
            _ => 1,
        }
    }
}

impl From<AllocError> for Fault<'_> {
    ghost from_gives = { λ _ fault. fault ≡ NoMemory };

    fn from(_error: AllocError) -> Self {
        Fault::NoMemory
    }
}

impl<T: Drop> From<AllocFailed<T>> for Fault<'_> {
    ghost from_gives = { λ _ fault. fault ≡ NoMemory };

    fn from(_error: AllocFailed<T>) -> Self {
        Fault::NoMemory
    }
}

impl From<ConfigFault> for Fault<'_> {
    ghost from_gives = { λ cause fault. fault ≡ config_fault cause };

    fn from(cause: ConfigFault) -> Self {
        match cause {
            ConfigFault::Syntax => Fault::ConfigSyntax,
            ConfigFault::Member(fault) => Fault::ConfigMember {
                name: fault.member.name(),
            },
            ConfigFault::NoMemory => Fault::NoMemory,
        }
    }
}

impl From<ScriptFault> for Fault<'_> {
    ghost from_gives = { λ cause fault. fault ≡ script_fault cause };

    fn from(cause: ScriptFault) -> Self {
        match cause {
            ScriptFault::Read => Fault::CannotReadInput,
            ScriptFault::Write { .. } => Fault::CannotWrite,
            ScriptFault::NoMemory => Fault::NoMemory,
            ScriptFault::LineTooLong { line } => Fault::LineTooLong { line },
        }
    }
}
