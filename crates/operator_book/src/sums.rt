//! What is owed, summed by operator, provider, currency and period.

ghost use Rattle.std.specs.Prelude.{◌≡◌, ◌<◌, ◌^◌, ◌+ℤ◌, pos, unsigned_abs, unwrap_or, [], ◌∷◌, ◌++◌, List, Some, OnOk, if◌then◌else◌};
ghost use Rattle.indexmap.specs.IndexMap.{get, spare};
ghost use Rattle.operator_book.specs.Inner.Sums.{SumsUp, same_sum_key};
ghost use Rattle.operator_book.specs.declared.keys.SumKey.{SumKey as Key};
ghost use Rattle.plain_house.specs.declared.entry.BookEntry.{BookEntry as Entry};

use crate::ids::booked_in;
use crate::keys::SumKey;
use crate::sum::Sum;
use indexmap::IndexMap;
use plain_house::{BookEntry, BookedAmount};
use std::alloc::{AllocError, Global};

/// The sum of each key that a CDR or Credit CDR has.
#[derive(Drop)]
pub struct OwedSums {
    rows: IndexMap<SumKey, Sum>,
}

impl OwedSums {
    pub fn new(alloc: Global) -> OwedSums
        ensures { SumsUp result [] }
    {
        OwedSums {
            rows: IndexMap::new(alloc),
        }
    }

    /// Makes room for one more key.
    pub fn reserve(&mut self) -> Result<(), AllocError>
        ensures rows { (entries : List Entry) → SumsUp self.old entries → SumsUp self.new entries }
        ensures room { OnOk result (0 < spare self.new.rows) }
        ensures kept { 0 < spare self.old.rows → 0 < spare self.new.rows }
    {
        self.rows.reserve(1)
    }

    pub fn of(&self, key: &SumKey) -> Option<Sum>
        ensures { result ≡ get same_sum_key self.now.rows key.now }
    {
        self.rows.get(key).copied()
    }

    fn add_to(&mut self, key: SumKey, booked: BookedAmount)
        requires room { 0 < spare self.old.rows }
        requires fits { unsigned_abs (unwrap_or (get same_sum_key self.old.rows key) (pos 0)) < 2 ^ 126 }
        ensures { (asked : Key) → get same_sum_key self.new.rows asked ≡ (if same_sum_key key asked
            then Some (unwrap_or (get same_sum_key self.old.rows key) (pos 0) +ℤ booked)
            else get same_sum_key self.old.rows asked) }
    {
        if let Some(sum) = self.rows.get_mut(&key) {
            *sum = sum.with(booked);
            return;
        }
        self.rows.insert(key, Sum::zero().with(booked)).unwrap();
    }

    /// Adds the entry that comes after these as well, without taking memory.
    pub fn add(&mut self, entries: &[BookEntry], entry: &BookEntry)
        requires room { 0 < spare self.old.rows }
        requires kept { SumsUp self.old entries.now }
        ensures { SumsUp self.new (entries.now ++ entry.now ∷ []) }
    {
        let _length = entries.len();
        let Some(found) = booked_in(entry) else {
            return;
        };
        let _amount = found.amount.amount();
        let key = SumKey {
            operator: found.cdr.operator,
            provider: found.cdr.cdr_token.provider,
            currency: found.cdr.currency,
            period: found.period,
        };
        self.add_to(key, found.amount);
    }
}
