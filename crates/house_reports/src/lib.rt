//! Reports on the lines of a reader and on the house after them, each by a command:
//!
//! - `statements` prints the order of events, and for each closed period the statement of each party, as CSV;
//! - `balances [--table]` prints what is owed, settled and open, as CSV or as a table for a terminal;
//! - `explain_lines` prints where and why each refused line fails, as CSV.
//!
//! The answers to the lines are not printed. The lines are those of a script or of a stream.
#![tactic(auto)]

mod balances;
mod command;
mod ended_house;
mod explain_lines;
mod statements;

pub use command::{Command, Lines};
