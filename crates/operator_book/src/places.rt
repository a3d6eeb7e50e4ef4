//! The places at which keys stand first in a list.

ghost use Rattle.std.specs.Prelude.{◌≡◌, ◌<◌, ◌≤◌, None, OnOk};
ghost use Rattle.indexmap.specs.IndexMap.{get, spare};
ghost use Rattle.operator_book.specs.Inner.FirstPlaces.{AddsPlace};

use indexmap::IndexMap;
use std::alloc::{AllocError, Global};
use std::hash::Hash;

#[derive(Drop)]
pub struct Places<K: Eq + Hash> {
    firsts: IndexMap<K, usize>,
}

impl<K: Eq + Hash + Copy + Drop> Places<K> {
    pub fn new(alloc: Global) -> Places<K>
        ensures { (key : K) → get K.eq result.firsts key ≡ None }
    {
        Places {
            firsts: IndexMap::new(alloc),
        }
    }

    /// Makes room for so many more keys.
    pub fn reserve(&mut self, keys: usize) -> Result<(), AllocError>
        ensures firsts { self.new.firsts.entries ≡ self.old.firsts.entries }
        ensures room { OnOk result (keys ≤ spare self.new.firsts) }
        ensures kept { 0 < spare self.old.firsts → 0 < spare self.new.firsts }
    {
        self.firsts.reserve(keys)
    }

    pub fn get(&self, key: &K) -> Option<usize>
        ensures { result ≡ get K.eq self.now.firsts key.now }
    {
        self.firsts.get(key).copied()
    }

    /// A key that has no place has this one from now on, without taking memory. A new key costs one search.
    pub fn put(&mut self, key: K, place: usize)
        requires { 0 < spare self.old.firsts }
        ensures { AddsPlace K.eq self.old.firsts self.new.firsts key place }
    {
        if let Some(first) = self.firsts.insert(key, place).unwrap() {
            self.firsts.insert(key, first).unwrap();
        }
    }
}
