//! CSV text of a house: the statements of its parties, and the order of its events.
#![tactic(auto)]

mod order;
mod record;
mod statement;

pub use order::{event_name, write_order};
pub use plain_house::statement_rows;
pub use statement::write_statement;
