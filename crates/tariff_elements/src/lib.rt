//! Which elements of a tariff apply at a moment of a session, and which price components are active
//! (OCPI 2.2.1, Tariff object).
#![tactic(auto)]

mod amounts;
mod choice;
mod days;
mod laws;
mod matching;
mod moments;
mod placing;
mod support;
mod windows;

pub use choice::{active, asks_clock};
pub use laws::{matches_in_force, windows_of_the_day};
pub use matching::matches;
pub use moments::Moment;
pub use ocpi_types::Zone;
pub use placing::{moment, moment_without_clock};
pub use support::unsupported;
