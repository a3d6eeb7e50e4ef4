//! The tokens of a value, kept beyond the line.

ghost use Rattle.std.specs.Prelude.{◌≡◌, ◌↔◌, ◌++◌, ℕ, List, map, length, flat_map, true, IfOk, IfSome, IfNone};
ghost use Rattle.json.specs.Tape.{node_token};
ghost use Rattle.ocpi_json.specs.Inner.Kept.{kind_of, mark_of, Spells};
ghost use Rattle.ocpi_json.specs.Tokens.{text_of};

use json::Node;
use std::alloc::{AllocError, Global};

/// The kind of a token.
#[derive(Clone, Copy, PartialEq, Eq)]
pub enum Kind {
    Object,
    EndObject,
    Array,
    EndArray,
    Key,
    String,
    Number,
    True,
    False,
    Null,
}

/// A token without its text.
#[derive(Clone, Copy)]
pub struct Mark {
    pub kind: Kind,
    /// The length of the text in bytes, or 0 if a token of this kind has none.
    pub len: usize,
}

/// Tokens in order, and their texts in a row.
#[derive(Drop)]
pub struct KeptTokens {
    pub marks: Vec<Mark>,
    pub texts: Vec<u8>,
}

#[inline(always)]
fn kind_of(node: &Node) -> Kind
    ensures { result ≡ kind_of (node_token node.now) }
{
    match node {
        Node::Object(_) => Kind::Object,
        Node::EndObject => Kind::EndObject,
        Node::Array(_) => Kind::Array,
        Node::EndArray => Kind::EndArray,
        Node::Key(_) => Kind::Key,
        Node::String(_) => Kind::String,
        Node::Number(_) => Kind::Number,
        Node::Bool(true) => Kind::True,
        Node::Bool(false) => Kind::False,
        Node::Null => Kind::Null,
    }
}

/// Returns the text of a key, a string or a number, and no bytes for any other token.
#[inline(always)]
pub fn text_of<'a>(node: &Node<'a>) -> &'a [u8]
    ensures { result.now ≡ text_of (node_token node.now) }
{
    match *node {
        Node::Key(text) | Node::String(text) | Node::Number(text) => text.as_bytes(),
        _ => &[],
    }
}

fn mark_of(node: &Node) -> Mark
    ensures { result ≡ mark_of (node_token node.now) }
{
    Mark {
        kind: kind_of(node),
        len: text_of(node).len(),
    }
}

/// Returns the texts after the text of a token, if the mark is the token's and the texts begin with its text.
#[inline(always)]
fn texts_after<'t>(mark: Mark, node: &Node, texts: &'t [u8]) -> Option<&'t [u8]>
    ensures same { IfSome result (λ rest. (mark ≡ mark_of (node_token node.now)) × (texts.now ≡ text_of (node_token node.now) ++ rest.now)) }
    ensures other { IfNone result ((rest : List ℕ) → mark ≡ mark_of (node_token node.now) → texts.now ≡ text_of (node_token node.now) ++ rest → ⊥) }
{
    let text = text_of(node);
    if mark.kind != kind_of(node) || mark.len != text.len() {
        return None;
    }
    // Brackets have no text, and need no call.
    if text.is_empty() {
        return Some(texts);
    }
    texts.strip_prefix(text)
}

impl KeptTokens {
    /// Copies the tokens of the nodes.
    ///
    /// # Errors
    ///
    /// `AllocError` if an allocation fails.
    pub fn of(alloc: Global, nodes: &[Node]) -> Result<KeptTokens, AllocError>
        ensures { IfOk result (λ kept. Spells kept.marks.items kept.texts.items (map node_token nodes.now)) }
    {
        let mut marks = Vec::with_capacity(alloc, nodes.len())?;
        let mut texts = Vec::new(alloc);
        for node in nodes {
            marks.push(mark_of(node))?;
            texts.extend_from_slice(text_of(node))?;
        }
        Ok(KeptTokens { marks, texts })
    }

    /// Whether these are the tokens of the nodes.
    pub fn are(&self, nodes: &[Node]) -> bool
        ensures { (result ≡ true) ↔ Spells self.now.marks.items self.now.texts.items (map node_token nodes.now) }
    {
        are_same(self.marks.as_slice(), self.texts.as_slice(), nodes)
    }
}

/// Whether these marks and texts are those of the nodes.
// Not inlined, since a large caller would keep the loop's values on the stack.
#[inline(never)]
fn are_same(marks: &[Mark], texts: &[u8], nodes: &[Node]) -> bool
    ensures { (result ≡ true) ↔ Spells marks.now texts.now (map node_token nodes.now) }
{
    if marks.len() != nodes.len() {
        return false;
    }
    let mut left_marks = marks;
    let mut left_texts = texts;
    for node in nodes {
        let Some((mark, later)) = left_marks.split_first() else {
            return false;
        };
        let Some(rest) = texts_after(*mark, node, left_texts) else {
            return false;
        };
        left_marks = later;
        left_texts = rest;
    }
    left_marks.is_empty() && left_texts.is_empty()
}
