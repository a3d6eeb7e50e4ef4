//! The values of a line, each by its place on the line's tape.

ghost use Rattle.std.specs.Prelude.{◌≡◌, ◌<◌, ◌^◌, ◌∷◌, [], length, is_some, option_map, MatchOption};
ghost use Rattle.json.specs.Find.{get, is_null, as_bool, as_str, as_number, as_object};
ghost use Rattle.ocpi_json.specs.Inner.Begun.{begun, listed, HasItems};
ghost use Rattle.ocpi_json.specs.Inner.Places.{tokens_from, IsLinked};
ghost use Rattle.ocpi_json.specs.Fields.{as_items, as_members};

use crate::has_members::HasMembers;
use crate::name::Name;
use crate::place::Place;
use bumpalo::Bump;
use json::Tape;
use std::marker::Model;

/// A value of a line. Its texts are lent by the line, or by the room where they hold escapes, and a
/// number is its text.
#[derive(Drop)]
pub struct Node<'a> {
    pub(crate) place: Place<'a>,
}

impl<'a> Model for Node<'a> {
    ghost use Rattle.json.specs.Json.{Json as Data};
    ghost use Rattle.ocpi_json.specs.Inner.Begun.{begun, data_code, Placed};
    ghost use Rattle.ocpi_json.specs.Inner.Places.{tokens_from, IsLinked};

    ghost Value = { Data };

    ghost coded = { data_code };

    ghost view = { λ n. begun (tokens_from n.place) };

    ghost invariant = { λ n. IsLinked n.place × Placed (tokens_from n.place) };
}

impl<'a> Node<'a> {
    /// The last member of that name, where this is an object.
    pub fn get(&self, name: &str) -> Option<Node<'a>>
        ensures { result ≡ get name.now self.now }
    {
        match self.place.get(name) {
            Some(place) => Some(Node { place }),
            None => None,
        }
    }

    pub fn is_null(&self) -> bool
        ensures { result ≡ is_null self.now }
    {
        self.place.is_null()
    }

    pub fn as_bool(&self) -> Option<bool>
        ensures { result ≡ as_bool self.now }
    {
        self.place.as_bool()
    }

    pub fn as_str(&self) -> Option<&'a str>
        ensures { option_map (λ t. t.now) result ≡ as_str self.now }
    {
        self.place.as_str()
    }

    /// The text of a number, as it is written.
    pub fn as_number(&self) -> Option<&'a str>
        ensures { option_map (λ t. t.now) result ≡ as_number self.now }
    {
        self.place.as_number()
    }

    pub fn items(&self) -> Option<Nodes<'a>>
        ensures { result ≡ as_items self.now }
    {
        let left = self.place.items()?;
        Some(Nodes {
            left: Some(left),
            len: count(left),
        })
    }

    pub fn members(&self) -> Option<Members<'a>>
        ensures { result ≡ as_members self.now }
    {
        match self.place.members() {
            Some(left) => Some(Members { left }),
            None => None,
        }
    }

    pub fn is_object(&self) -> bool
        ensures { result ≡ is_some (as_object self.now) }
    {
        self.place.members().is_some()
    }
}

impl<'a> HasMembers<'a> for Node<'a> {
    ghost object = { λ node. node };

    fn find(&self, name: Name) -> Option<Node<'a>> {
        self.get(name.key())
    }
}

fn count(mut items: Place<'_>) -> usize
    requires { IsLinked items × HasItems (tokens_from items) × (length (listed (tokens_from items)) < 2 ^ 64) }
    ensures { result ≡ length (listed (tokens_from items.entry)) }
{
    let mut len = 0;
    while let Some(_) = items.next_item() {
        len += 1;
    }
    len
}

/// The items of an array that are left, in order.
#[derive(Drop)]
pub struct Nodes<'a> {
    left: Option<Place<'a>>,
    len: usize,
}

impl<'a> Model for Nodes<'a> {
    ghost use Rattle.std.specs.Prelude.{List};
    ghost use Rattle.std.specs.Coded.{coded_list};
    ghost use Rattle.json.specs.Json.{Json as Data};
    ghost use Rattle.ocpi_json.specs.Inner.Begun.{data_code};
    ghost use Rattle.ocpi_json.specs.Inner.Places.{listed_if_any, IsRow};

    ghost Value = { List Data };

    ghost coded = { coded_list data_code };

    ghost view = { λ n. listed_if_any n.left };

    ghost invariant = { λ n. IsRow n.left n.len };
}

impl<'a> Nodes<'a> {
    /// No items.
    pub fn none() -> Nodes<'a>
        ensures { result ≡ [] }
    {
        Nodes { left: None, len: 0 }
    }

    pub fn len(&self) -> usize
        ensures { result ≡ length self.now }
    {
        self.len
    }
}

impl<'a> Iterator for Nodes<'a> {
    ghost use Rattle.std.specs.Iterator.{YieldsFirst, item_count};

    type Item = Node<'a>;

    ghost next_gives = { YieldsFirst (λ nodes. nodes) };

    ghost remaining = { item_count (λ nodes. nodes) };

    fn next(&mut self) -> Option<Node<'a>> {
        let Some(left) = &mut self.left else {
            return None;
        };
        match left.next_item() {
            Some(place) => {
                self.len -= 1;
                Some(Node { place })
            }
            None => None,
        }
    }
}

/// The members of an object that are left, in order.
#[derive(Drop)]
pub struct Members<'a> {
    left: Place<'a>,
}

impl<'a> Model for Members<'a> {
    ghost use Rattle.std.specs.Prelude.{List, ℕ};
    ghost use Rattle.json.specs.Json.{Json as Data};
    ghost use Rattle.ocpi_json.specs.Inner.Begun.{named, members_code, Named};
    ghost use Rattle.ocpi_json.specs.Inner.Places.{tokens_from, IsLinked};

    ghost Value = { List (List ℕ × Data) };

    ghost coded = { members_code };

    ghost view = { λ m. named (tokens_from m.left) };

    ghost invariant = { λ m. IsLinked m.left × Named (tokens_from m.left) };
}

impl<'a> Iterator for Members<'a> {
    ghost use Rattle.std.specs.Iterator.{YieldsFirstBy, item_count};

    type Item = (&'a str, Node<'a>);

    ghost next_gives = { YieldsFirstBy (λ member. (member.0.now, member.1)) (λ members. members) };

    ghost remaining = { item_count (λ members. members) };

    fn next(&mut self) -> Option<(&'a str, Node<'a>)> {
        let Some((name, place)) = self.left.next_member() else {
            return None;
        };
        Some((name, Node { place }))
    }
}

/// What a line is: its tape.
#[derive(Drop)]
pub struct Line<'a> {
    tape: Tape<'a, &'a Bump>,
}

impl<'a> Model for Line<'a> {
    ghost use Rattle.json.specs.Json.{Json as Data};
    ghost use Rattle.ocpi_json.specs.Inner.Begun.{begun, data_code};

    ghost Value = { Data };

    ghost coded = { data_code };

    ghost view = { λ l. begun l.tape };
}

impl<'a> Line<'a> {
    pub(crate) fn new(tape: Tape<'a, &'a Bump>) -> Line<'a>
        ensures { result ≡ begun tape.entry }
    {
        Line { tape }
    }

    /// The value that the line is.
    pub fn value(&self) -> Node<'_>
        ensures { result ≡ self.now }
    {
        // It has no more values than the tape has places, and one begins at the first.
        let _len = self.tape.len();
        let _root = self.tape.root();
        Node {
            place: Place {
                nodes: self.tape.nodes(),
                at: 0,
            },
        }
    }
}
