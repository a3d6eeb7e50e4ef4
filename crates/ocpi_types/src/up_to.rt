ghost use Rattle.std.specs.Prelude.{◌≤◌, length};
ghost use Rattle.ocpi_json.specs.Faults.{Finds};
ghost use Rattle.ocpi_json.specs.Members.{each};

use ocpi_json::Nodes;
use ocpi_json::fields::FieldFault;
use ocpi_json::name::Name;
use ocpi_json::objects::{FromNodeIn, read_each_in};
use ocpi_json::sequence::Sequence;
use std::alloc::Global;
use std::marker::Model;

/// A list of at most `MOST` items.
#[derive(Drop)]
pub struct UpTo<T, const MOST: usize> {
    items: Sequence<T>,
}

impl<T, const MOST: usize> Model for UpTo<T, MOST> {
    ghost use Rattle.std.specs.Prelude.{◌≤◌, List, length};

    ghost Value = { List T };

    ghost view = { λ list. list.items };

    ghost invariant = { λ list. length list.items ≤ MOST };

    ghost inverse = { λ items. record { items = items } };
}

impl<T: Drop, const MOST: usize> UpTo<T, MOST> {
    ghost use Rattle.std.specs.Prelude.{◌≡◌, ◌≤◌, ◌↔◌, length, IsSome, IfSome};

    /// These items, if they are at most `MOST`.
    pub fn new(items: Sequence<T>) -> Option<UpTo<T, MOST>>
        ensures most { IsSome result ↔ (length items ≤ MOST) }
        ensures value { IfSome result (λ list. list ≡ items) }
    {
        if items.as_slice().len() <= MOST {
            Some(UpTo { items })
        } else {
            None
        }
    }

    /// The items, without taking memory.
    pub fn as_slice(&self) -> &[T]
        ensures value { result.now ≡ self.now }
        ensures most { length result.now ≤ MOST }
    {
        self.items.as_slice()
    }
}

/// The values that stand in at most `MOST` items of the list in the member of that name, in order.
pub fn read_up_to<T: FromNodeIn + Drop, const MOST: usize>(
    alloc: Global,
    name: Name,
    nodes: Nodes,
) -> Result<UpTo<T, MOST>, FieldFault>
    requires { length nodes ≤ MOST }
    ensures { Finds result (each name T.at nodes.entry) }
{
    let values = read_each_in(alloc, name, nodes)?;
    Ok(UpTo::new(values).unwrap())
}
