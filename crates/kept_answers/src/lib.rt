//! Lines that are on the disk before they are answered.
#![tactic(auto)]

mod answering;
mod fault;
mod keeping;
mod laws;
mod pending;
mod restart;
mod watch;

pub use answering::answer_new_lines;
pub use fault::KeepFault;
pub use keeping::{Ended, Gate, keep};
pub use laws::{kept_is_a_run, runs_are_one, script_runs_are_one, scripts_are_determined};
pub use restart::answer_kept_lines;
pub use watch::{Unwatched, Watch};
