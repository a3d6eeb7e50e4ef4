//! CDRs that were booked are rated again, over all processors, and compared with what was booked.
#![tactic(auto)]

mod rating;
mod records;

pub use cdr_rating::Zone;
pub use rating::re_rate;
pub use records::{Difference, Record};
