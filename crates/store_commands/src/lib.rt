//! Commands over a store: a house whose lines are kept, and what a store keeps; a stream that another engine keeps, and
//! the line that changes a configuration.
#![tactic(auto)]

mod change_check;
mod check;
mod command;
mod configure;
mod first_format;
mod keep;
mod laws;
mod log;
mod opening;
mod reading;
mod stream;
mod upgrade;
mod words;

pub use change_check::check_change;
pub use command::Command;
pub use laws::streams_with_causes_run_as_one;
pub use reading::{ReadingFault, StoreText, tell_unread};
