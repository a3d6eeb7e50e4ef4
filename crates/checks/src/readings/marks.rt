//! A value with its marks, as `serde_json` has it: a text and a key get an `s`, a number becomes a text that begins with
//! `n`, and of equal keys the last one's value stands.

use ocpi_json::{Members, Node, Nodes};
use serde_json::{Map, Value};
use std::alloc::{AllocError, Global};

fn marked_text(alloc: Global, mark: &str, text: &str) -> Result<String, AllocError> {
    let mut marked = String::from_str(alloc, mark)?;
    marked.push_str(text)?;
    Ok(marked)
}

fn marked_leaf(alloc: Global, node: &Node) -> Result<Value, AllocError> {
    if let Some(flag) = node.as_bool() {
        return Ok(Value::Bool(flag));
    }
    if let Some(token) = node.as_number() {
        return Ok(Value::String(marked_text(alloc, "n", token)?));
    }
    match node.as_str() {
        Some(text) => Ok(Value::String(marked_text(alloc, "s", text)?)),
        None => Ok(Value::Null),
    }
}

/// The value with its marks.
#[cycle(marks)]
pub fn marked_value(alloc: Global, node: &Node) -> Result<Value, AllocError> {
    if let Some(items) = node.items() {
        return Ok(Value::Array(marked_items(alloc, items)?));
    }
    match node.members() {
        Some(members) => Ok(Value::Object(marked_members(alloc, members)?)),
        None => marked_leaf(alloc, node),
    }
}

#[cycle(marks)]
fn marked_items(alloc: Global, mut items: Nodes) -> Result<Vec<Value>, AllocError> {
    let mut marked = Vec::new(alloc);
    while let Some(item) = items.next() {
        marked.push(marked_value(alloc, &item)?)?;
    }
    Ok(marked)
}

#[cycle(marks)]
fn marked_members(alloc: Global, mut members: Members) -> Result<Map<String, Value>, AllocError> {
    let mut marked = Map::new(alloc);
    while let Some((key, member)) = members.next() {
        let value = marked_value(alloc, &member)?;
        drop(marked.insert(marked_text(alloc, "s", key)?, value)?);
    }
    Ok(marked)
}
