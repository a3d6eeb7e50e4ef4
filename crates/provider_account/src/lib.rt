//! The account of tokens, holds, charges, credits and settlements, found by their keys and summed.
#![tactic(auto)]

mod account;
mod account_index;
mod charged;
mod counts;
mod debt_keys;
mod debts;
mod ended;
mod hold_sums;
mod holds;
mod owed;
mod sums;
mod tokens;

pub use account::Account;
