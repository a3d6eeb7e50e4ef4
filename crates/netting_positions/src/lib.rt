//! Multilateral netting: what each party is to receive less what it is to pay, by currency.
#![tactic(auto)]

mod history;
mod laws;
mod obligation;
mod positions;
mod row;
mod same;
mod statement;
mod table;

pub use laws::{
    joined_lists_owe_alike, net_positions_are_balanced, operators_owe_alike,
    parties_are_configured, parties_are_different, positions_balance, statements_are_in_order,
    statements_are_short, sums_decide_net_positions, sums_decide_statements,
};
pub use obligation::Obligation;
pub use positions::{NetPosition, Positions, parties_of};
pub use row::StatementRow;
pub use statement::{StatementTable, rows_of};
pub use table::{ObligationTable, add_each};
