//! What ends the program early, and the line that tells it.

use command_line::{Fault, tell_as};
use ocpi_types::ConfigFault;
use request_lines::{Device, ScriptFault};
use shared_house::FinishFault;
use std::alloc::{AllocError, AllocFailed};
use std::io;

/// What ends the program early.
#[derive(Clone, Copy)]
pub enum CheckFault<'a> {
    /// What ends any command early.
    Command { fault: Fault<'a> },

    /// Fewer passes came back than were made.
    MissingPass,

    /// What the concurrent house has at its end is no history, first at this number.
    Torn { entry: u64 },

    /// The call that was to be paused was not at its waypoint, or the others were not answered while it was there.
    NotPaused,

    /// What was read is no input of copies, or could not be copied.
    NoCopy,

    /// Lines could not be read in both ways.
    NotCompared,

    /// A line and its marked text are read differently.
    ReadDifferently,

    /// A printed row differs from the expected one.
    NotAsExpected,
}

impl<'a> From<Fault<'a>> for CheckFault<'a> {
    fn from(fault: Fault<'a>) -> Self {
        CheckFault::Command { fault }
    }
}

impl From<AllocError> for CheckFault<'_> {
    fn from(_error: AllocError) -> Self {
        CheckFault::from(Fault::NoMemory)
    }
}

impl<T: Drop> From<AllocFailed<T>> for CheckFault<'_> {
    fn from(_error: AllocFailed<T>) -> Self {
        CheckFault::from(Fault::NoMemory)
    }
}

impl From<ConfigFault> for CheckFault<'_> {
    fn from(cause: ConfigFault) -> Self {
        CheckFault::from(Fault::from(cause))
    }
}

impl From<ScriptFault> for CheckFault<'_> {
    fn from(cause: ScriptFault) -> Self {
        CheckFault::from(Fault::from(cause))
    }
}

impl From<FinishFault> for CheckFault<'_> {
    fn from(cause: FinishFault) -> Self {
        match cause {
            FinishFault::MissingPass => CheckFault::MissingPass,
            FinishFault::Torn { entry } => CheckFault::Torn { entry },
            FinishFault::NoMemory => CheckFault::from(Fault::NoMemory),
        }
    }
}

impl CheckFault<'_> {
    /// The exit status.
    pub fn status(&self) -> u8 {
        match self {
            CheckFault::Command { fault } => fault.status(),
            _ => 1,
        }
    }
}

/// Tells the fault in one line on standard error.
pub fn tell(rt: &HostRuntime, fault: &CheckFault<'_>) -> io::Result<()> {
    match *fault {
        CheckFault::Command { fault } => {
            tell_as(&mut Device::new(rt.stderr()), "checks", &fault);
            Ok(())
        }
        CheckFault::MissingPass => eprintln!(rt; "checks: a pass is missing"),
        CheckFault::Torn { entry } => eprintln!(rt; "checks: torn at {entry}"),
        CheckFault::NotPaused => eprintln!(rt; "checks: not paused"),
        CheckFault::NoCopy => eprintln!(rt; "checks: no copy"),
        CheckFault::NotCompared => eprintln!(rt; "checks: not compared"),
        CheckFault::ReadDifferently => eprintln!(rt; "checks: read differently"),
        CheckFault::NotAsExpected => eprintln!(rt; "checks: not as expected"),
    }
}
