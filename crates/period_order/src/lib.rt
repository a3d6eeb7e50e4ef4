//! The order of events over books and accounts, and a house that keeps them.
#![tactic(auto)]

mod book_house;
mod decided;
mod decision;
mod entry_books;
mod last;
mod laws;
mod numbers;
mod order;
mod order_entry;
mod puts;
mod resolved;

pub use book_house::BookHouse;
pub use decided::{Decided, Outcome};
pub use decision::decide;
pub use entry_books::EntryBooks;
pub use laws::{
    books_are_collectable, collected_owes_alike, configurations_judge_for_themselves,
    dues_are_of_own_books, events_are_kept, orders_are_counted, orders_are_resolved,
    orders_resolve, outcomes_are_verdicts, parties_stand_at_their_numbers, resolving_is_unique,
    resolving_is_whole,
};
pub use numbers::{operator_number, provider_number};
pub use order::Order;
pub use order_entry::{OrderEntry, Place};
pub use puts::{put_in_account, put_in_book};
pub use resolved::{ResolveFault, resolve};
