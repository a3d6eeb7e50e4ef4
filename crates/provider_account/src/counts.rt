//! How many entries, and how many holds, each provider has.

ghost use Rattle.std.specs.Prelude.{◌≡◌, ◌+◌, ◌-◌, ◌<◌, List, [], ◌∷◌, ◌++◌, OnOk, if◌then◌else◌};
ghost use Rattle.indexmap.specs.IndexMap.{spare};
ghost use Rattle.ocpi_types.specs.Party.{same_party};
ghost use Rattle.plain_house.specs.House.{is_hold_of};
ghost use Rattle.plain_house.specs.Full.{is_entry_of};
ghost use Rattle.plain_house.specs.declared.entry.AccountEntry.{AccountEntry};
ghost use Rattle.provider_account.specs.Inner.Counts.{HasRoomForCounts, IsFew, KnowsCounts};
ghost use Rattle.provider_account.specs.Inner.Sums.{sum_at};

use super::sums::SumsByKey;
use ocpi_types::Party;
use plain_house::AccountEntry;
use std::alloc::{AllocError, Global};

/// How many entries each provider has, and how many of them are holds.
#[derive(Drop)]
pub(crate) struct AccountCounts {
    pub entries: SumsByKey<Party>,
    pub holds: SumsByKey<Party>,
}

// Whose account the entry is of.
fn provider_of(entry: &AccountEntry) -> Party
    ensures { (provider : Party) → is_entry_of provider entry.now ≡ same_party result provider }
{
    match entry {
        AccountEntry::Token(token) => token.provider,
        AccountEntry::Hold(hold) => hold.provider,
        AccountEntry::Release(release) => release.provider,
        AccountEntry::Charge(charge) => charge.provider,
        AccountEntry::Credit(credit) => credit.provider,
        AccountEntry::Settlement(settlement) => settlement.provider,
    }
}

// Counts one more of the provider.
fn count(counts: &mut SumsByKey<Party>, provider: Party)
    requires room { 0 < spare counts.old.cells }
    requires few { IsFew counts.old }
    ensures { (other : Party) → sum_at same_party counts.new other ≡ sum_at same_party counts.old other + (if same_party provider other then 1 else 0) }
{
    counts.add(provider, 1);
}

impl AccountCounts {
    pub(crate) fn new(alloc: Global) -> AccountCounts
        ensures { KnowsCounts result [] }
    {
        AccountCounts {
            entries: SumsByKey::new(alloc),
            holds: SumsByKey::new(alloc),
        }
    }

    /// Room for one more provider.
    pub(crate) fn reserve(&mut self) -> Result<(), AllocError>
        ensures room { OnOk result (HasRoomForCounts self.new) }
        ensures more { HasRoomForCounts self.old → HasRoomForCounts self.new }
        ensures kept { (entries : List AccountEntry) → KnowsCounts self.old entries → KnowsCounts self.new entries }
    {
        self.entries.reserve(1)?;
        self.holds.reserve(1)
    }

    /// Takes the entry in, without taking memory.
    pub(crate) fn put(&mut self, entry: &AccountEntry)
        requires room { HasRoomForCounts self.old }
        requires entries { IsFew self.old.entries }
        requires holds { IsFew self.old.holds }
        ensures { (entries : List AccountEntry) → KnowsCounts self.old entries → KnowsCounts self.new (entries ++ entry.now ∷ []) }
    {
        count(&mut self.entries, provider_of(entry));
        if let AccountEntry::Hold(hold) = entry {
            count(&mut self.holds, hold.provider);
        }
    }
}
