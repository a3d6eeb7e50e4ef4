//! The command that added an event, and the request that adds it again.
#![tactic(auto)]

mod asks;
mod laws;
mod platform_table;
mod platforms;

pub use asks::{ask_again, hold_ask};
pub use laws::{asked_again_is_given, commands_are_determined, holds_are_asked_again};
pub use platforms::Platforms;
