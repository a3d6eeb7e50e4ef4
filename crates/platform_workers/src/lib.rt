//! Platforms on threads: each answers the lines of a reader by a house that all share, with a pass of its own.
#![tactic(auto)]

mod jobs;
mod laws;
mod platform;
mod workers;

pub use jobs::{NotBegun, WorkerEnd};
pub use laws::calls_are_those_of_lines;
pub use workers::run_platforms;
