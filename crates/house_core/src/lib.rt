//! The house in atomic steps: books and accounts under locks, the order of events, and calls that take one step after another.
//! What a step is, and what is so of every list of steps.
#![tactic(auto)]

mod collection;
mod finished;
mod laws;
mod locks;
mod numbers;
mod parts;
mod replaying;
mod running_call;
mod stage;
mod step;
mod table;
mod world;

pub use finished::{Done, Finished, Trace};
pub use laws::{
    calls_can_end, commands_are_one_house, events_are_claimed_once, legal_lists_keep_rules,
    locks_are_exclusive, steps_are_decided, steps_change_no_more,
};
pub use period_order::decide;
pub use replaying::replay;
pub use step::{Action, Step};
pub use world::World;
