//! Requests, which of them are admitted, and the commands that a house takes of them.
#![tactic(auto)]

mod admission;
mod asking;
mod cause;
mod cdr_admission;
mod cdr_conditions;
mod checked;
mod laws;
mod parties;
mod place;
mod request;
mod same;

pub use admission::admit;
pub use asking::is_a_hub;
pub use cause::{Cause, Reason};
pub use cdr_admission::check;
pub use cdr_conditions::{ensure_no_reservation, ensure_supported, is_within_tolerance, supported};
pub use checked::Checked;
pub use laws::{
    admitted_pass_their_tests, commands_have_parties, posts_are_checked, refused_by_the_first,
};
pub use place::Place;
pub use request::{
    Ask, Authorize, Close, Command, ExposureOf, Find, Release, Request, Settlement, StatementOf,
};
pub use tariff_elements::unsupported;
