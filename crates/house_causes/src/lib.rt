//! Why a request is refused: the place in the request, what was found there, what it was compared with, and the event that
//! contradicts it.
#![tactic(auto)]

mod bookings;
mod causes;
mod credits;
mod holds;
mod house_cause;
pub mod laws;
mod periods;
mod request_cause;
mod stores;
mod tokens;
mod versions;

pub use causes::cause_of;
pub use house_cause::{HouseCause, HouseReason};
pub use request_cause::{RequestCause, cause_of_request};
