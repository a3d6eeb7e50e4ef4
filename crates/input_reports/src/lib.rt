//! Tells what a configuration has in force, and what CDRs cost by their tariffs:
//!
//! - `tell_config` prints what is in force in a configuration, what of it is passed over, and of what it is warned;
//! - `print_amount` prints what the CDR of standard input costs, by the zone of its operator;
//! - `print_explanation` prints the same row by row, as CSV;
//! - `Records` are those of standard input, one a line, of which it is told which are not rated at what was booked.
//! - `zone_words` are said of a word that is no zone.
//!
//! A configuration and a CDR are JSON. Where there is no answer, standard error says why in one line and the status is 1.
#![tactic(auto)]

mod cdr_text;
mod check_config;
mod explain_cost;
mod no_zone;
mod printing;
mod ratable;
mod rate;
mod rating_fault;
mod re_rate;

pub use check_config::tell_config;
pub use no_zone::zone_words;
pub use printing::{print_amount, print_explanation};
pub use re_rate::Records;
