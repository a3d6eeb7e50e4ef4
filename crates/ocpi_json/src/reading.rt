// What a line is: its value as JSON, with each number as it is written.
ghost use Rattle.std.specs.Prelude.{◌≡◌, ◌<◌, ◌≤◌, None, Some, IfOk, IfSome, IsErrOf, drop, length, map, option_map};
ghost use Rattle.json.specs.Tape.{node_token, Linked};
ghost use Rattle.ocpi_json.specs.Inner.Levels.{level, link_of, stays_within};
ghost use Rattle.ocpi_json.specs.Reading.{value_of, if_utf8, data_of};

use crate::fault::ReadFault;
use crate::node::Line;
use bumpalo::Bump;
use json::{Error, Node, Scratch, Tape};
use std::alloc::Global;
use std::marker::Model;

/// The memory that the value of a line takes. One is kept and lent to each line.
#[derive(Drop)]
pub struct Room {
    bump: Bump,
    scratch: Scratch,
}

// What it keeps is no part of what a contract sees.
impl Model for Room {
    ghost use Rattle.std.specs.Prelude.{⊤};

    ghost Value = { ⊤ };

    ghost view = { λ r. tt };
}

const MAX_DEPTH: usize = 127;

#[tactic(auto, using(crate::proofs::Readings::utf8_facts))]
fn text_in(bytes: &[u8]) -> Option<&str>
    ensures { option_map (λ t. t.now) result ≡ if_utf8 bytes.now }
{
    simdutf8::basic::from_utf8(bytes).ok()
}

fn level(deep: usize, node: &Node) -> usize
    requires { deep ≤ 127 }
    ensures { result ≡ level deep (node_token node.now) }
{
    match node {
        Node::Object(_) | Node::Array(_) => deep + 1,
        Node::EndObject | Node::EndArray => deep.saturating_sub(1),
        _ => deep,
    }
}

// The index after the array or object of a node.
fn link(node: &Node) -> Option<usize>
    ensures { result ≡ link_of node.now }
{
    match node {
        Node::Object(after) | Node::Array(after) => Some(*after),
        _ => None,
    }
}

// The index after the array or object at `at`, if it has few nodes: a value has at most half as many levels as nodes.
fn after_few(nodes: &[Node], at: usize, deep: usize) -> Option<usize>
    requires inside { at < length nodes.now }
    requires linked { Linked (map node_token nodes.now) 0 nodes.now }
    requires within { deep ≤ 127 }
    ensures same { IfSome result (λ after. stays_within deep (drop at (map node_token nodes.now)) ≡ stays_within deep (drop after (map node_token nodes.now))) }
    ensures later { IfSome result (λ after. (at < after) × (after ≤ length nodes.now)) }
{
    let after = link(&nodes[at])?;
    if after - at <= 2 * (MAX_DEPTH - deep) {
        Some(after)
    } else {
        None
    }
}

fn stays_within(nodes: &[Node]) -> bool
    requires { Linked (map node_token nodes.now) 0 nodes.now }
    ensures { result ≡ stays_within 0 (map node_token nodes.now) }
{
    let mut deep = 0;
    let mut at = 0;
    while at < nodes.len() {
        if let Some(after) = after_few(nodes, at, deep) {
            at = after;
            continue;
        }
        deep = level(deep, &nodes[at]);
        if MAX_DEPTH < deep {
            return false;
        }
        at += 1;
    }
    true
}

fn line_in<'a>(bump: &'a Bump, text: &'a str, scratch: &'a mut Scratch) -> Result<Line<'a>, Error>
    ensures ok { IfOk result (λ line. value_of text.now ≡ Some line) }
    ensures invalid { IsErrOf result Error.Invalid → value_of text.now ≡ None }
    ensures never_duplicate { IsErrOf result Error.DuplicateKey → ⊥ }
{
    let tape = Tape::parse(text, scratch, Vec::new(bump))?;
    if !stays_within(tape.nodes()) {
        return Err(Error::Invalid);
    }
    Ok(Line::new(tape))
}

impl Room {
    pub fn new(alloc: Global) -> Room {
        Room {
            bump: Bump::new(alloc),
            scratch: Scratch::new(alloc),
        }
    }

    /// What a line is. An object keeps members of equal keys, and a look-up finds the last of them.
    ///
    /// # Errors
    ///
    /// `Syntax` where the line is no JSON by RFC 8259, is no UTF-8, or nests more than 127 levels
    /// deep; `NoMemory` where memory ran out, or the line is too long for a tape.
    #[tactic(auto, unfolding(crate::specs::Reading::data_of))]
    pub fn read<'a>(&'a mut self, bytes: &'a [u8]) -> Result<Line<'a>, ReadFault>
        ensures value { IfOk result (λ line. data_of bytes.now ≡ Some line) }
        ensures none { IsErrOf result ReadFault.Syntax → data_of bytes.now ≡ None }
    {
        let Some(text) = text_in(bytes) else {
            return Err(ReadFault::Syntax);
        };
        if self.bump.reset().is_err() {
            return Err(ReadFault::NoMemory);
        }
        match line_in(&self.bump, text, &mut self.scratch) {
            Ok(line) => Ok(line),
            Err(Error::Invalid) => Err(ReadFault::Syntax),
            Err(Error::OutOfMemory | Error::TooLong) => Err(ReadFault::NoMemory),
            Err(Error::DuplicateKey) => unreachable!(),
        }
    }
}
