//! A list of events whose first event of each key is found without scanning the list.
#![tactic(auto)]

mod keys;
mod known_events;
mod places;

pub use known_events::KnownEvents;
