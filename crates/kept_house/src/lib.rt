//! A house whose request lines are kept in a store before they are answered.
#![tactic(auto)]

mod beginning;
mod clocks;
mod differences;
mod fault;
mod keeping;
mod laws;
mod record;

pub use beginning::{Begun, begin};
pub use differences::first_difference;
pub use fault::{StoreFault, Word};
pub use keeping::{Kept, keep_house, stream_under};
pub use kept_answers::{Unwatched, Watch};
pub use laws::{records_have_one_config, streams_are_answered_one_way, streams_run_as_one};
pub use record::{config_in, first_record, on_one_line};
