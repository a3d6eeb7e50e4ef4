//! Lines of a script, read on several threads while earlier ones are answered.
#![tactic(auto)]

mod ahead;
mod answering;
mod batches;
mod begun;
mod idle_tariffs;
mod left;
mod read_batch;
mod reader;
mod reading;
mod running;
mod scripted;

pub use running::{MOST_THREADS, run_script_ahead};
