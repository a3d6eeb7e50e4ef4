//! What one CDR costs, row by row: a row for each charging period and component, for what steps add, for what is due once, for the
//! minimum, the maximum and the rounding, and the amount.

mod change;
mod cost;
mod cost_text;
mod explained;
mod laws;
mod numbers;
mod record;
mod row;
mod rows;

pub use explained::explain_text;
