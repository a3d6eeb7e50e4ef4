//! A house of one list of events: its reply to a command is the meaning that every other house is proved against.
#![tactic(auto)]

// What every house shares.
mod answer;
mod booked_amount;
mod entry;
mod entry_laws;
mod event;
mod hold_reference;
mod laws;
mod over_limit;
mod posting;
mod replies;
mod reply_room;
mod same;
mod scope;
mod sequential;

// The house of one list, and what it scans its list for.
mod booked;
mod debts;
mod holds;
mod house;
mod obligations;
mod periods;
mod tariffs;
mod tokens;

pub use answer::{Answer, Refused, Replied};
pub use booked::{BookedCdr, booked_in};
pub use booked_amount::BookedAmount;
pub use entry::{AccountEntry, BookEntry, Charge, Credit, charge_of, credit_of};
pub use entry_laws::{
    empty_entries_are_legal, events_keep_accounts_legal, events_keep_books_legal,
    legal_accounts_begin_legally, legal_accounts_have_room, legal_accounts_keep_limits,
    legal_books_are_charged, legal_books_are_taken_back, legal_books_begin_legally,
    legal_books_can_be_netted, legal_books_have_room, legal_lists_have_legal_entries,
};
pub use event::{Event, Hold};
pub use hold_reference::reference;
pub use holds::names;
pub use house::PlainHouse;
pub use laws::{
    accounts_are_of_own_entries, books_are_of_own_entries, closed_periods_stay,
    closed_positions_balance, commands_keep_lists_legal, empty_lists_are_legal,
    entries_add_at_most, entries_are_dated, events_are_of_configured, events_are_of_their_command,
    exposure_is_of_own_entries, exposure_with_charge_is_of_own_entries, exposures_in_any_spelling,
    legal_cdrs_are_charged, legal_credits_are_taken_back, legal_lists_begin_legally,
    legal_lists_can_be_netted, legal_lists_keep_limits, legal_positions_balance, replies_are_short,
    replies_fit, replies_tell_events, settlements_end_their_debts, verdicts_are_of_own_entries,
    verdicts_are_told,
};
pub use obligations::{obligations_in, statement_rows};
pub use over_limit::{OverLimit, over};
pub use periods::{period_after, period_of, split_first_period};
pub use posting::{CreditDifference, above, credit_difference, reply_to_booked, taken_back};
pub use replies::{adds_event, is_out_of_memory, out_of_memory, stamped};
pub use reply_room::ReplyRoom;
pub use scope::Scope;
pub use sequential::Sequential;
pub use tariffs::is_registered_by_any;
