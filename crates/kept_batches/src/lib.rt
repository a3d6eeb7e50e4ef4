//! Lines of bytes in a file that a person can read, in batches. Each batch has its length and the head of all lines up to it.
#![tactic(auto)]

mod batch;
mod end;
mod error;
mod finding;
mod header;
mod heads;
mod laws;
mod lines;
mod log;
mod looking;
mod opening;
mod recovery;
mod repair;
mod window;
mod writes;

pub use batch::Batch;
pub use error::KeepError;
pub use finding::Found;
pub use heads::{first_head, head_after, next_head};
pub use laws::{
    appends_survive, beginnings_survive, cuts_survive, heads_collide, keeps_one, marks_survive,
    one_byte_tells, place_is_right, receipts_hold, verdict_is_right, windows_suffice,
};
pub use log::{Log, MOST_BATCH_BYTES};
pub use looking::{Look, look_on};
pub use recovery::{MOST_WINDOW, Recovery, Unrecovered};
