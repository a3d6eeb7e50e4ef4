//! Reads the lines of a store of format 1, and changes nothing.
#![tactic(auto)]

mod error;
mod marks;
mod recovery;
mod window;

pub use error::KeepError;
pub use recovery::Recovery;
