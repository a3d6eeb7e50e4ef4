//! The book of tariff versions and CDRs, found by their keys and summed by period.
#![tactic(auto)]

mod book;
mod counts;
mod credited;
mod ids;
mod index;
mod keys;
mod laws;
mod owed;
mod places;
mod sharing;
mod sum;
mod sums;
mod versions;

pub use book::Book;
pub use laws::{sums_are_no_larger, sums_owe_alike};
pub use places::Places;
