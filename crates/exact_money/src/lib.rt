//! Exact money: prices in millionths, sums without loss, and amounts to four decimals.
#![tactic(auto)]

mod amount;
mod amount_buffer;
mod exact;
mod millionths;

pub use amount::{Amount, amount_text_reads_back};
pub use amount_buffer::AmountBuffer;
pub use exact::Exact;
pub use millionths::{Millionths, millionths_of_is_value};
