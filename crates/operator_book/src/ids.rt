//! The CDRs and Credit CDRs of a list of entries, found by operator and id.

ghost use Rattle.std.specs.Prelude.{◌≡◌, ◌<◌, ◌≤◌, [], ◌∷◌, ◌++◌, List, option_map, OnOk};
ghost use Rattle.std.specs.Option.{option_to_list};
ghost use Rattle.indexmap.specs.IndexMap.{spare};
ghost use Rattle.operator_book.specs.Inner.Ids.{FindsCdrs};
ghost use Rattle.plain_house.specs.Booked.{booked_as, booked_in, shown_booked};
ghost use Rattle.plain_house.specs.declared.entry.BookEntry.{BookEntry as Entry};

use crate::keys::CdrKey;
use crate::places::Places;
use ocpi_json::ci_text::CiText;
use ocpi_types::Party;
use plain_house::{BookEntry, BookedAmount, BookedCdr};
use std::alloc::{AllocError, Global};

pub fn booked_in(entry: &BookEntry) -> Option<BookedCdr<'_>>
    ensures { option_to_list (option_map shown_booked result) ≡ booked_in entry.now }
{
    match entry {
        BookEntry::Tariff(_) => None,
        BookEntry::Cdr { cdr, cost, period } => Some(BookedCdr {
            cdr,
            amount: BookedAmount::of_cost(*cost),
            period: *period,
        }),
        BookEntry::Credit {
            cdr,
            amount,
            period,
        } => Some(BookedCdr {
            cdr,
            amount: *amount,
            period: *period,
        }),
    }
}

/// The place of the CDR or Credit CDR of each operator and id.
#[derive(Drop)]
pub struct Ids {
    places: Places<CdrKey>,
}

impl Ids {
    pub fn new(alloc: Global) -> Ids
        ensures { FindsCdrs result [] }
    {
        Ids {
            places: Places::new(alloc),
        }
    }

    /// Makes room for so many more.
    pub fn reserve(&mut self, cdrs: usize) -> Result<(), AllocError>
        ensures places { (entries : List Entry) → FindsCdrs self.old entries → FindsCdrs self.new entries }
        ensures room { OnOk result (cdrs ≤ spare self.new.places.firsts) }
        ensures kept { 0 < spare self.old.places.firsts → 0 < spare self.new.places.firsts }
    {
        self.places.reserve(cdrs)
    }

    /// The CDR or Credit CDR of that operator and id.
    pub fn find<'a>(
        &self,
        entries: &'a [BookEntry],
        operator: &Party,
        id: &CiText<39>,
    ) -> Option<BookedCdr<'a>>
        requires { FindsCdrs self.now entries.now }
        ensures { option_map shown_booked result ≡ booked_as operator.now id.now entries.now }
    {
        let key = CdrKey {
            operator: *operator,
            id: *id,
        };
        let place = self.places.get(&key)?;
        booked_in(entries.get(place)?)
    }

    /// Finds the entry that comes after these as well, without taking memory.
    pub fn add(&mut self, entries: &[BookEntry], entry: &BookEntry)
        requires room { 0 < spare self.old.places.firsts }
        requires kept { FindsCdrs self.old entries.now }
        ensures { FindsCdrs self.new (entries.now ++ entry.now ∷ []) }
    {
        if let Some(found) = booked_in(entry) {
            let key = CdrKey {
                operator: found.cdr.operator,
                id: found.cdr.id,
            };
            self.places.put(key, entries.len());
        }
    }
}
