//! What is known of a list of entries without going over it.

ghost use Rattle.std.specs.Prelude.{[], ◌∷◌, ◌++◌, List, OnOk};
ghost use Rattle.operator_book.specs.Inner.Indexed.{HasRoom, IsIndexOf};
ghost use Rattle.operator_book.specs.Inner.Versions.{IsNewVersion};
ghost use Rattle.plain_house.specs.declared.entry.BookEntry.{BookEntry as Entry};

use crate::counts::BookCounts;
use crate::credited::Credited;
use crate::ids::Ids;
use crate::sums::OwedSums;
use crate::versions::Versions;
use plain_house::BookEntry;
use std::alloc::{AllocError, Global};

#[derive(Drop)]
pub struct Index {
    pub ids: Ids,
    pub versions: Versions,
    pub credited: Credited,
    pub counts: BookCounts,
    pub sums: OwedSums,
}

impl Index {
    pub fn new(alloc: Global) -> Index
        ensures { IsIndexOf result [] }
    {
        Index {
            ids: Ids::new(alloc),
            versions: Versions::new(alloc),
            credited: Credited::new(alloc),
            counts: BookCounts::new(alloc),
            sums: OwedSums::new(alloc),
        }
    }

    /// Makes room to find so many more CDRs and Credit CDRs by their ids.
    pub fn make_room(&mut self, cdrs: usize) -> Result<(), AllocError>
        ensures index { (entries : List Entry) → IsIndexOf self.old entries → IsIndexOf self.new entries }
        ensures kept { HasRoom self.old → HasRoom self.new }
    {
        self.ids.reserve(cdrs)
    }

    /// Makes room for one more entry.
    pub fn reserve(&mut self) -> Result<(), AllocError>
        ensures index { (entries : List Entry) → IsIndexOf self.old entries → IsIndexOf self.new entries }
        ensures room { OnOk result (HasRoom self.new) }
        ensures kept { HasRoom self.old → HasRoom self.new }
    {
        self.ids.reserve(1)?;
        self.versions.reserve()?;
        self.credited.reserve()?;
        self.counts.reserve()?;
        self.sums.reserve()
    }

    /// Takes in the entry that comes after these, without taking memory.
    pub fn add(&mut self, entries: &[BookEntry], entry: &BookEntry)
        requires room { HasRoom self.old }
        requires index { IsIndexOf self.old entries.now }
        requires fresh { IsNewVersion entries.now entry.now }
        ensures { IsIndexOf self.new (entries.now ++ entry.now ∷ []) }
    {
        self.ids.add(entries, entry);
        self.versions.add(entries, entry);
        self.credited.add(entry);
        self.counts.add(entries, entry);
        self.sums.add(entries, entry);
    }
}
