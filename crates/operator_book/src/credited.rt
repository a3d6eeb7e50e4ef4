//! The CDRs that Credit CDRs of a list of entries credit.

ghost use Rattle.std.specs.Prelude.{◌≡◌, ◌<◌, [], ◌∷◌, ◌++◌, List, OnOk};
ghost use Rattle.indexmap.specs.IndexSet.{spare};
ghost use Rattle.operator_book.specs.Inner.Credited.{KnowsCredited};
ghost use Rattle.plain_house.specs.Booked.{is_credited};
ghost use Rattle.plain_house.specs.declared.entry.BookEntry.{BookEntry as Entry};

use crate::ids::booked_in;
use crate::keys::CdrKey;
use indexmap::IndexSet;
use ocpi_json::ci_text::CiText;
use ocpi_types::Party;
use plain_house::BookEntry;
use std::alloc::{AllocError, Global};

/// The operator and the id of each CDR that is credited.
#[derive(Drop)]
pub struct Credited {
    keys: IndexSet<CdrKey>,
}

impl Credited {
    pub fn new(alloc: Global) -> Credited
        ensures { KnowsCredited result [] }
    {
        Credited {
            keys: IndexSet::new(alloc),
        }
    }

    /// Makes room for one more.
    pub fn reserve(&mut self) -> Result<(), AllocError>
        ensures keys { (entries : List Entry) → KnowsCredited self.old entries → KnowsCredited self.new entries }
        ensures room { OnOk result (0 < spare self.new.keys) }
        ensures kept { 0 < spare self.old.keys → 0 < spare self.new.keys }
    {
        self.keys.reserve(1)
    }

    /// A Credit CDR among the entries credits the CDR of that operator and id.
    pub fn has(&self, operator: &Party, id: &CiText<39>) -> bool
        ensures { (entries : List Entry) → KnowsCredited self.now entries → result ≡ is_credited operator.now id.now entries }
    {
        let key = CdrKey {
            operator: *operator,
            id: *id,
        };
        self.keys.contains(&key)
    }

    /// Takes in one entry more, without taking memory.
    pub fn add(&mut self, entry: &BookEntry)
        requires { 0 < spare self.old.keys }
        ensures { (entries : List Entry) → KnowsCredited self.old entries → KnowsCredited self.new (entries ++ entry.now ∷ []) }
    {
        let Some(found) = booked_in(entry) else {
            return;
        };
        if let Some(id) = found.cdr.credit {
            let key = CdrKey {
                operator: found.cdr.operator,
                id,
            };
            self.keys.insert(key).unwrap();
        }
    }
}
