//! What stands under the locks.

mod account;
mod book;
mod order;

pub use account::LockedAccount;
pub use book::LockedBook;
pub use order::LockedOrder;
