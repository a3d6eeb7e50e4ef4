//! Lists in which no two items are alike.

ghost use Rattle.std.specs.Prelude.{◌≡◌, IfOk};
ghost use Rattle.std.specs.List.{list_any};
ghost use Rattle.ocpi_types.specs.Different.{all_different};

use super::copying::{TryCopy, copied};
use super::members::ensure;
use ocpi_json::name::Name;
use ocpi_json::sequence::Sequence;
use ocpi_json::{Expected, MemberFault};
use std::alloc::{AllocError, Global};
use std::marker::Model;

/// Items that may be alike, as two of one party are.
pub trait Alike {
    ghost use Rattle.std.specs.Prelude.{◌≡◌, Bool};

    ghost alike: { Self → Self → Bool };

    fn is_like(&self, other: &Self) -> bool
        ensures { result ≡ alike self.now other.now };
}

fn is_like_one_of<T: Alike>(item: &T, others: &[T]) -> bool
    ensures { result ≡ list_any (T.alike item.now) others.now }
{
    others.iter().any(|other| item.is_like(other))
}

/// No two items at different places are alike.
pub fn are_all_different<T: Alike>(items: &[T]) -> bool
    ensures { result ≡ all_different T.alike items.now }
{
    let mut rest = items;
    while let Some((first, after)) = rest.split_first() {
        if is_like_one_of(first, after) {
            return false;
        }
        rest = after;
    }
    true
}

/// At most `MOST` items, of which no two are alike.
#[derive(Drop)]
pub struct Distinct<T: Alike, const MOST: usize> {
    items: Sequence<T>,
}

impl<T: Alike, const MOST: usize> Model for Distinct<T, MOST> {
    ghost use Rattle.std.specs.Prelude.{◌≡◌, ◌≤◌, List, length, true};
    ghost use Rattle.ocpi_types.specs.Different.{all_different};

    ghost Value = { List T };

    ghost view = { λ list. list.items };

    ghost invariant = { λ list. (length list.items ≤ MOST) × (all_different T.alike list.items ≡ true) };

    ghost inverse = { λ items. record { items = items } };
}

impl<T: Alike + Drop, const MOST: usize> Distinct<T, MOST> {
    ghost use Rattle.std.specs.Prelude.{◌≡◌, ◌≤◌, [], length, true, Ok, Err, if◌then◌else◌};
    ghost use Rattle.ocpi_types.specs.Different.{all_different, doubled};

    /// No items.
    pub fn empty(alloc: Global) -> Distinct<T, MOST>
        ensures { result ≡ [] }
    {
        Distinct {
            items: Sequence::new(alloc),
        }
    }

    /// These items, or the fault of their list, which is the member of that name, where two are alike.
    pub fn new(items: Sequence<T>, name: Name) -> Result<Distinct<T, MOST>, MemberFault>
        requires { length items ≤ MOST }
        ensures { result ≡ (if all_different T.alike items then Ok items else Err (doubled name)) }
    {
        ensure(
            are_all_different(items.as_slice()),
            name,
            Expected::Different,
        )?;
        Ok(Distinct { items })
    }

    /// The items, without taking memory.
    pub fn as_slice(&self) -> &[T]
        ensures value { result.now ≡ self.now }
        ensures most { length result.now ≤ MOST }
        ensures different { all_different T.alike result.now ≡ true }
    {
        self.items.as_slice()
    }
}

/// The same items again.
pub fn copied_distinct<T: Alike + Copy, const MOST: usize>(
    alloc: Global,
    list: &Distinct<T, MOST>,
) -> Result<Distinct<T, MOST>, AllocError>
    ensures { IfOk result (λ copy. copy ≡ list.now) }
{
    let items = copied(alloc, &list.items)?;
    Ok(Distinct { items })
}

impl<T: Alike + TryCopy + Drop, const MOST: usize> TryCopy for Distinct<T, MOST> {
    fn copy(&self, alloc: Global) -> Result<Distinct<T, MOST>, AllocError> {
        let items = self.items.copy(alloc)?;
        Ok(Distinct { items })
    }
}
