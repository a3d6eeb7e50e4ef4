//! The ledgers of a house.

mod names;
mod shares;
mod tally;

pub use names::{Configured, Names, Part};
pub use shares::{Counts, NoShares, Rest, Shares};
pub use tally::{Tally, tally_of};
