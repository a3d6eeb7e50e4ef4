//! The events of a house, kept under a new configuration.
#![tactic(auto)]

mod added;
mod holds;
mod laws;
mod loosening;
mod takeover;
mod valid_tokens;

pub use laws::{
    first_otherwise_is_unique, loosened_judges_wider, loosened_limits_are_highest,
    taken_over_is_whole, taken_over_or_refused,
};
pub use loosening::loosened;
pub use takeover::{TakeOverFault, house_of, with_configuration};
