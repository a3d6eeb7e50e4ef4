ghost use Rattle.std.specs.Prelude.{◌≡◌, length, vec_len};

use crate::ledgers::{Configured, Names, Part, Rest};
use crate::locked::{LockedAccount, LockedBook, LockedOrder};
use ocpi_types::Config;
use std::sync::Mutex;

/// What stands under locks: a book for each operator and an account for each provider, in the order of the configuration; the
/// order of events; and the shares that are left over.
#[derive(Drop)]
pub struct Locks<N: Names> {
    pub books: Vec<Mutex<LockedBook<N>>>,
    pub accounts: Vec<Mutex<LockedAccount<N>>>,
    pub order: Mutex<LockedOrder<N>>,
    pub rest: Mutex<Rest<N>>,
    ghost all_books: { (vec_len books ≡ N.BookEntries.all) × (vec_len books ≡ N.BookAmounts.all) },
    ghost all_accounts: { (vec_len accounts ≡ N.AccountEntries.all) × (vec_len accounts ≡ N.AccountAmounts.all) },
    ghost each_operator: { vec_len books ≡ length N.BookEntries.config.operators },
    ghost each_provider: { vec_len accounts ≡ length N.BookEntries.config.providers },
}

/// A house that threads share.
pub struct House<N: Names> {
    pub(crate) config: Config,
    pub(crate) locks: Locks<N>,
    pub(crate) passes: usize,
    ghost configured: { config ≡ N.BookEntries.config },
    ghost all_passes: { passes ≡ N.Events.all },
}

// Not derived: what is derived is proved anew in each crate that drops one.
impl<N: Names> Drop for House<N> {
    fn drop(self) {
        let House {
            config: _,
            locks: _,
            passes: _,
        } = self;
    }
}

impl<N: Names> House<N> {
    ghost use Rattle.std.specs.Prelude.{◌≡◌};

    /// The configuration of the house.
    pub fn config(&self) -> &Config
        ensures { result.now ≡ N.BookEntries.config }
    {
        &self.config
    }

    // The configuration, and what stands under locks.
    pub(crate) fn into_parts(self) -> (Config, Locks<N>)
        ensures config { result.0 ≡ N.BookEntries.config }
        ensures locks { result.1 ≡ self.locks }
    {
        let House {
            config,
            locks,
            passes: _,
        } = self;
        (config, locks)
    }
}
