//! Sums that are found by a key.

ghost use Rattle.std.specs.Prelude.{◌≡◌, ◌+◌, ◌-◌, ◌^◌, ◌≤◌, ◌<◌, true, false, OnOk};
ghost use Rattle.indexmap.specs.IndexMap.{spare};
ghost use Rattle.provider_account.specs.Inner.Sums.{IsSet, first_if, sum_at};

use indexmap::IndexMap;
use std::alloc::{AllocError, Global};
use std::hash::Hash;

/// A sum for each key, 0 where none was set. An account has one provider as a rule, so its first key is that of most calls.
#[derive(Drop)]
pub(crate) struct SumsByKey<K: Eq + Hash> {
    pub cells: IndexMap<K, u64>,
}

impl<K: Eq + Hash + Drop> SumsByKey<K> {
    pub(crate) fn new(alloc: Global) -> SumsByKey<K>
        ensures { (key : K) → sum_at K.eq result key ≡ 0 }
    {
        SumsByKey {
            cells: IndexMap::new(alloc),
        }
    }

    // The sum of the key if it is the first one.
    fn first(&self, key: &K) -> Option<u64>
        ensures { result ≡ first_if (K.eq key.now) self.now.cells.entries }
    {
        match self.cells.first() {
            Some((first, sum)) if key == first => Some(*sum),
            _ => None,
        }
    }

    /// The first key costs no search.
    pub(crate) fn get(&self, key: &K) -> u64
        ensures { result ≡ sum_at K.eq self.now key.now }
    {
        if let Some(sum) = self.first(key) {
            return sum;
        }
        self.cells.get(key).copied().unwrap_or(0)
    }

    /// Room for so many more keys.
    pub(crate) fn reserve(&mut self, additional: usize) -> Result<(), AllocError>
        ensures room { OnOk result (additional ≤ spare self.new.cells) }
        ensures more { spare self.old.cells ≤ spare self.new.cells }
        ensures kept { (key : K) → sum_at K.eq self.new key ≡ sum_at K.eq self.old key }
    {
        self.cells.reserve(additional)
    }

    // Raises the sum of the key if it is the first one, and says whether it is.
    fn raise_first(&mut self, key: &K, amount: u64) -> bool
        requires { sum_at K.eq self.old key.now + amount < 2 ^ 64 }
        ensures raised { result ≡ true → IsSet K.eq self.old key.now (sum_at K.eq self.old key.now + amount) self.new }
        ensures kept { result ≡ false → self.new ≡ self.old }
        ensures room { spare self.old.cells ≤ spare self.new.cells }
    {
        if self.first(key).is_none() {
            return false;
        }
        match self.cells.first_mut() {
            Some(sum) => {
                *sum += amount;
                true
            }
            None => false,
        }
    }

    /// Raises the sum of a key, without taking memory. The first key costs no search.
    pub(crate) fn add(&mut self, key: K, amount: u64)
        requires room { 0 < spare self.old.cells }
        requires fits { sum_at K.eq self.old key + amount < 2 ^ 64 }
        ensures set { IsSet K.eq self.old key (sum_at K.eq self.old key + amount) self.new }
        ensures room { spare self.old.cells ≤ spare self.new.cells + 1 }
    {
        if self.raise_first(&key, amount) {
            return;
        }
        if let Some(sum) = self.cells.get_mut(&key) {
            *sum += amount;
            return;
        }
        self.cells.insert(key, amount).unwrap();
    }

    /// Lowers the sum of a key.
    pub(crate) fn take(&mut self, key: &K, amount: u64)
        requires { amount ≤ sum_at K.eq self.old key.now }
        ensures set { IsSet K.eq self.old key.now (sum_at K.eq self.old key.now - amount) self.new }
        ensures room { spare self.old.cells ≤ spare self.new.cells }
    {
        if let Some(sum) = self.cells.get_mut(key) {
            *sum -= amount;
        }
    }
}
