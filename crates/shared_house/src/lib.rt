//! A house that threads share: each book, each account and the order of events under a lock of its own, tied by ledgers that
//! count what stands under the locks; and the check that what its calls returned is one history.
#![tactic(auto)]

mod call;
mod certifying;
mod ended;
mod finishing;
mod gate;
mod gathered;
mod house;
mod laws;
mod ledgers;
mod locked;
mod pass;
mod waiting;

pub use call::Call;
pub use certifying::{
    CertifyFault, certified_is_unique, certified_is_whole, certify, histories_keep_promises,
    passes_see_their_events,
};
pub use ended::Ended;
pub use finishing::FinishFault;
pub use gate::{Gate, NoGate, Waypoint};
pub use gathered::{Gathered, gather};
pub use house::{Blanks, House};
pub use laws::{
    cdrs_are_accepted_at_their_cost, closes_balance, credits_are_accepted_as_due_back,
    exposures_are_within_limits, locked_accounts_keep_limits, locked_books_keep_rules,
    locked_orders_are_counted, nothing_is_torn_without_events, over_limits_are_above,
    repeated_cdrs_are_told_at_their_cost, replies_of_calls_fit,
};
pub use ledgers::{Configured, Names, Part};
pub use locked::{LockedAccount, LockedBook, LockedOrder};
pub use pass::Pass;
