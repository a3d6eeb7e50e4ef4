//! How a house ends without one of its passes.

use crate::check_fault::CheckFault;
use command_line::Fault;
use shared_house::{Ended, FinishFault, Names, Pass};

/// Loses the last of the passes.
pub fn lose_last<N: Names>(passes: &mut Vec<Pass<N>>) {
    let _ = passes.pop();
}

/// Tells how the house ended.
pub fn tell(
    rt: &HostRuntime,
    ended: &Result<Ended, FinishFault>,
) -> Result<(), CheckFault<'static>> {
    let how = match ended {
        Ok(_) => "ended",
        Err(FinishFault::MissingPass) => "a pass is missing",
        Err(FinishFault::Torn { .. }) => "torn",
        Err(FinishFault::NoMemory) => return Err(CheckFault::from(Fault::NoMemory)),
    };
    match println!(rt; "one of two passes: {how}") {
        Ok(()) => Ok(()),
        Err(_) => Err(CheckFault::from(Fault::CannotWrite)),
    }
}
