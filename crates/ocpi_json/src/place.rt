//! Places on the tape of a line.

ghost use Rattle.std.specs.Prelude.{◌≡◌, ℕ, ◌<◌, ◌≤◌, List, ◌∷◌, map, length, drop, Some, None, option_map, MatchOption, IfSome, IfNone};
ghost use Rattle.json.specs.Token.{Token};
ghost use Rattle.json.specs.Json.{Json as Data, Items, Members, array, object, value};
ghost use Rattle.json.specs.Tape.{node_token, Linked};
ghost use Rattle.json.specs.Tree.{json_tokens};
ghost use Rattle.json.specs.Find.{BeginsWith, InItems, InMembers, NextItem, NextMember, Finds, get, is_null, as_str, as_number, as_bool, as_array, as_object};
ghost use Rattle.ocpi_json.specs.Inner.Places.{tokens_from, IsLinked};

use json::Node;

/// A place on a tape. Unlike `json::Element`, it can be copied.
#[derive(Clone, Copy)]
pub struct Place<'a> {
    pub nodes: &'a [Node<'a>],
    pub at: usize,
}

/// Returns the index after the value that begins at `at`.
fn after(nodes: &[Node<'_>], at: usize) -> usize
    requires { (at < length nodes.now) × Linked (map node_token nodes.now) 0 nodes.now }
    ensures value { (depth : ℕ) (j : Data) (rest : List Token)
        → value depth (drop at (map node_token nodes.now)) ≡ Some (j, rest)
        → rest ≡ drop result (map node_token nodes.now) }
    ensures later { at < result }
    ensures within { result ≤ length nodes.now }
{
    match nodes[at] {
        Node::Object(end) | Node::Array(end) => end,
        _ => at + 1,
    }
}

impl<'a> Place<'a> {
    fn node(&self) -> Node<'a>
        ensures { (j : Data) → BeginsWith (tokens_from self.now) j → tokens_from self.now ≡ node_token result ∷ drop 1 (tokens_from self.now) }
    {
        if self.at < self.nodes.len() {
            self.nodes[self.at]
        } else {
            Node::Null
        }
    }

    /// Returns the tokens of the value that begins here.
    pub fn tokens(&self) -> &'a [Node<'a>]
        requires { IsLinked self.now }
        ensures { (j : Data) → BeginsWith (tokens_from self.now) j → map node_token result.now ≡ json_tokens j }
    {
        if self.at < self.nodes.len() {
            &self.nodes[self.at..after(self.nodes, self.at)]
        } else {
            &[]
        }
    }

    pub fn is_null(&self) -> bool
        ensures { (j : Data) → BeginsWith (tokens_from self.now) j → result ≡ is_null j }
    {
        if let Node::Null = self.node() {
            true
        } else {
            false
        }
    }

    pub fn as_bool(&self) -> Option<bool>
        ensures { (j : Data) → BeginsWith (tokens_from self.now) j → result ≡ as_bool j }
    {
        if let Node::Bool(flag) = self.node() {
            Some(flag)
        } else {
            None
        }
    }

    pub fn as_str(&self) -> Option<&'a str>
        ensures { (j : Data) → BeginsWith (tokens_from self.now) j → option_map (λ t. t.now) result ≡ as_str j }
    {
        if let Node::String(text) = self.node() {
            Some(text)
        } else {
            None
        }
    }

    /// Returns the text of a number, as it is written.
    pub fn as_number(&self) -> Option<&'a str>
        ensures { (j : Data) → BeginsWith (tokens_from self.now) j → option_map (λ t. t.now) result ≡ as_number j }
    {
        if let Node::Number(text) = self.node() {
            Some(text)
        } else {
            None
        }
    }

    /// Returns the place of the first item, or of the end of the array, if an array begins here.
    pub fn items(&self) -> Option<Place<'a>>
        ensures value { (j : Data) → BeginsWith (tokens_from self.now) j
            → MatchOption result (as_array j ≡ None) (λ left. (js : Items) × (j ≡ array js) × InItems (tokens_from left) js) }
        ensures tape { IfSome result (λ left. left.nodes ≡ self.now.nodes) }
    {
        if let Node::Array(_) = self.node() {
            Some(self.inside())
        } else {
            None
        }
    }

    /// Returns the place of the first member, or of the end of the object, if an object begins here.
    pub fn members(&self) -> Option<Place<'a>>
        ensures value { (j : Data) → BeginsWith (tokens_from self.now) j
            → MatchOption result (as_object j ≡ None) (λ left. (ms : Members) × (j ≡ object ms) × InMembers (tokens_from left) ms) }
        ensures tape { IfSome result (λ left. left.nodes ≡ self.now.nodes) }
    {
        if let Node::Object(_) = self.node() {
            Some(self.inside())
        } else {
            None
        }
    }

    fn inside(&self) -> Place<'a>
        ensures value { (j : Data) → BeginsWith (tokens_from self.now) j → tokens_from result ≡ drop 1 (tokens_from self.now) }
        ensures tape { result.nodes ≡ self.now.nodes }
    {
        Place {
            nodes: self.nodes,
            at: self.at.saturating_add(1),
        }
    }

    /// Returns the place of the last member of that name, if an object begins here that has one.
    pub fn get(&self, name: &str) -> Option<Place<'a>>
        requires { IsLinked self.now }
        ensures value { (j : Data) → BeginsWith (tokens_from self.now) j → Finds (option_map tokens_from result) (get name.now j) }
        ensures tape { IfSome result (λ member. member.nodes ≡ self.now.nodes) }
    {
        let mut left = self.members()?;
        let mut found = None;
        while let Some((key, member)) = left.next_member() {
            if key == name {
                found = Some(member);
            }
        }
        found
    }

    /// Returns the place of the next item, and goes on after it.
    pub fn next_item(&mut self) -> Option<Place<'a>>
        requires { IsLinked self.old }
        ensures value { NextItem (tokens_from self.old) (option_map tokens_from result) (tokens_from self.new) }
        ensures tape { self.new.nodes ≡ self.old.nodes }
        ensures same { IfSome result (λ item. item.nodes ≡ self.old.nodes) }
        ensures shorter { IfSome result (λ _. length (tokens_from self.new) < length (tokens_from self.old)) }
        ensures stays { IfNone result (self.new ≡ self.old) }
    {
        let (nodes, at) = (self.nodes, self.at);
        if at >= nodes.len() {
            return None;
        }
        if let Node::EndArray = nodes[at] {
            return None;
        }
        self.at = after(nodes, at);
        Some(Place { nodes, at })
    }

    /// Returns the key of the next member and the place of its value, and goes on after it.
    pub fn next_member(&mut self) -> Option<(&'a str, Place<'a>)>
        requires { IsLinked self.old }
        ensures value { NextMember (tokens_from self.old) (option_map (λ m. (m.0.now, tokens_from m.1)) result) (tokens_from self.new) }
        ensures tape { self.new.nodes ≡ self.old.nodes }
        ensures same { IfSome result (λ m. m.1.nodes ≡ self.old.nodes) }
        ensures inside { IfSome result (λ m. 0 < m.1.at) }
        ensures shorter { IfSome result (λ _. length (tokens_from self.new) < length (tokens_from self.old)) }
        ensures stays { IfNone result (self.new ≡ self.old) }
    {
        let (nodes, at) = (self.nodes, self.at);
        if at >= nodes.len().saturating_sub(1) {
            return None;
        }
        let Node::Key(key) = nodes[at] else {
            return None;
        };
        self.at = after(nodes, at + 1);
        Some((key, Place { nodes, at: at + 1 }))
    }
}
