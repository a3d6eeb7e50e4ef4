//! The members of an object by name, found in one walk.

ghost use Rattle.std.specs.Prelude.{◌≡◌, ◌≢◌, ℕ, ◌<◌, ◌≤◌, length, get_or, true, false, option_map, IfSome, IfNone};
ghost use Rattle.std.specs.Str.{bytes_eq};
ghost use Rattle.json.specs.Json.{Json as Data};
ghost use Rattle.json.specs.Find.{BeginsWith, Finds};
ghost use Rattle.ocpi_json.specs.Fields.{member_at};
ghost use Rattle.ocpi_json.specs.Inner.Picked.{name_at, slot_of, index_in, noted, AreNoted};
ghost use Rattle.ocpi_json.specs.Inner.Places.{tokens_from, IsLinked};
ghost use Rattle.ocpi_json.specs.Name.{key_text};

use crate::has_members::HasMembers;
use crate::name::Name;
use crate::node::Node;
use crate::place::Place;
use std::marker::Model;

// The members of a CDR that are read.
const MOST: usize = 17;

// More than there are names, so that each name has a slot of its own.
const SLOTS: usize = 128;

/// An object, and the places of its members of some names.
#[derive(Drop)]
pub struct Picked<'a> {
    object: Place<'a>,
    names: &'static [Name],
    // the index of a name in its slot
    slots: [u8; SLOTS],
    // the place of a member at the index of its name, or 0 if the object has no such member
    places: [usize; MOST],
}

impl<'a> Model for Picked<'a> {
    ghost use Rattle.std.specs.Prelude.{◌≡◌, ℕ, ◌<◌, get_or};
    ghost use Rattle.json.specs.Json.{Json as Data};
    ghost use Rattle.ocpi_json.specs.Inner.Begun.{begun, data_code, Placed};
    ghost use Rattle.ocpi_json.specs.Inner.Picked.{AreNoted};
    ghost use Rattle.ocpi_json.specs.Inner.Places.{tokens_from, IsLinked};

    ghost Value = { Data };

    ghost coded = { data_code };

    ghost view = { λ p. begun (tokens_from p.object) };

    ghost invariant = { λ p. IsLinked p.object × Placed (tokens_from p.object) × ((k : ℕ) → get_or p.slots k 0 < 17)
        × AreNoted p.object p.names.now p.slots p.places };
}

/// Returns the slot of a name.
fn slot(name: Name) -> usize
    ensures value { result ≡ slot_of name }
    ensures within { result < 128 }
{
    name as usize % SLOTS
}

/// Returns the index of each of the first 17 names in its slot.
fn slots_of(names: &[Name]) -> [u8; SLOTS]
    ensures { (k : ℕ) → get_or result k 0 < 17 }
{
    let mut slots = [0; SLOTS];
    let mut at = 0;
    while at < names.len() && at < MOST {
        slots[slot(names[at])] = at as u8;
        at += 1;
    }
    slots
}

/// Returns the index of a name, if it is in the name's slot.
fn index_of(names: &[Name], slots: &[u8; SLOTS], name: Name) -> Option<usize>
    ensures found { IfSome result (λ at. (at < length names.now) × (name_at names.now at ≡ name) × (at ≡ index_in slots.now name)) }
    ensures none { IfNone result ((i : ℕ) → i < length names.now → i ≡ index_in slots.now name → name_at names.now i ≢ name) }
{
    let at = slots[slot(name)] as usize;
    if at < names.len() && names[at] == name {
        Some(at)
    } else {
        None
    }
}

/// Returns the index of the name of a key, from `from` up to and without `to`.
fn index_between(names: &[Name], from: usize, to: usize, key: &str) -> Option<usize>
    requires { to ≤ length names.now }
    ensures found { IfSome result (λ at. (at < to) × (bytes_eq key.now (key_text (name_at names.now at)) ≡ true)) }
    ensures none { IfNone result ((i : ℕ) → from ≤ i → i < to → bytes_eq key.now (key_text (name_at names.now i)) ≡ false) }
{
    let mut at = from;
    while at < to {
        if key == names[at].key() {
            return Some(at);
        }
        at += 1;
    }
    None
}

/// Returns the index of the name of a key: the search begins at `from`, and goes on at the first name.
fn index_of_key(names: &[Name], from: usize, key: &str) -> Option<usize>
    requires { from ≤ length names.now }
    ensures found { IfSome result (λ at. (at < length names.now) × (bytes_eq key.now (key_text (name_at names.now at)) ≡ true)) }
    ensures none { IfNone result ((i : ℕ) → i < length names.now → bytes_eq key.now (key_text (name_at names.now i)) ≡ false) }
{
    match index_between(names, from, names.len(), key) {
        Some(at) => Some(at),
        None => index_between(names, 0, from, key),
    }
}

/// Returns the place of the last member of each name, in one walk over the object.
fn places_of(object: &Place, names: &[Name], slots: &[u8; SLOTS]) -> [usize; MOST]
    requires linked { IsLinked object.now }
    requires few { (k : ℕ) → get_or slots.now k 0 < 17 }
    ensures { AreNoted object.now names.now slots.now result }
{
    let mut places = [0; MOST];
    let Some(mut left) = object.members() else {
        return places;
    };
    let mut next = 0;
    while let Some((key, member)) = left.next_member() {
        if let Some(at) = index_of_key(names, next, key) {
            next = at + 1;
            if let Some(index) = index_of(names, slots, names[at]) {
                places[index] = member.at;
            }
        }
    }
    places
}

/// Returns the place of a number, which is `None` for 0.
fn noted_place<'a>(object: &Place<'a>, at: usize) -> Option<Place<'a>>
    ensures value { option_map tokens_from result ≡ noted object.now at }
    ensures tape { IfSome result (λ member. member.nodes ≡ object.now.nodes) }
{
    if at == 0 {
        return None;
    }
    Some(Place {
        nodes: object.nodes,
        at,
    })
}

impl<'a> Node<'a> {
    ghost use Rattle.std.specs.Prelude.{◌≡◌};

    /// Returns this object with the places of its members of these names, which one walk finds. Names in the order of the members cost the
    /// fewest comparisons. Any other name can be looked for too, also the names after the first 17, but each costs a walk.
    pub fn pick(&self, names: &'static [Name]) -> Picked<'a>
        ensures { result ≡ self.now }
    {
        let object = self.place;
        let slots = slots_of(names);
        let places = places_of(&object, names, &slots);
        Picked {
            object,
            names,
            slots,
            places,
        }
    }
}

/// Returns the place of the last member of that name: the noted one if the name was picked, and otherwise by a walk.
fn place_of<'a>(
    object: &Place<'a>,
    names: &[Name],
    slots: &[u8; SLOTS],
    places: &[usize; MOST],
    name: Name,
) -> Option<Place<'a>>
    requires linked { IsLinked object.now }
    requires few { (k : ℕ) → get_or slots.now k 0 < 17 }
    requires noted { AreNoted object.now names.now slots.now places.now }
    ensures value { (j : Data) → BeginsWith (tokens_from object.now) j → Finds (option_map tokens_from result) (member_at name j) }
    ensures tape { IfSome result (λ member. member.nodes ≡ object.now.nodes) }
{
    match index_of(names, slots, name) {
        Some(at) => noted_place(object, places[at]),
        None => object.get(name.key()),
    }
}

impl<'a> HasMembers<'a> for Picked<'a> {
    ghost object = { λ picked. picked };

    fn find(&self, name: Name) -> Option<Node<'a>> {
        let object = self.object;
        match place_of(&object, self.names, &self.slots, &self.places, name) {
            Some(place) => Some(Node { place }),
            None => None,
        }
    }
}
