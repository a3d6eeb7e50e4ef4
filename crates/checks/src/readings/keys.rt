//! Which keys are marked.

use ocpi_json::{Members, Node, Nodes};
use serde_json::{Map, Value};

fn is_marked(key: &str) -> bool {
    key.as_bytes().first() == Some(&b's')
}

/// Whether every key begins with `s`, at any depth: also one that stands again behind it.
#[cycle(all)]
pub fn are_all_marked(node: &Node) -> bool {
    if let Some(items) = node.items() {
        return are_items_marked(items);
    }
    match node.members() {
        Some(members) => are_members_marked(members),
        None => true,
    }
}

#[cycle(all)]
fn are_items_marked(mut items: Nodes) -> bool {
    while let Some(item) = items.next() {
        if !are_all_marked(&item) {
            return false;
        }
    }
    true
}

#[cycle(all)]
fn are_members_marked(mut members: Members) -> bool {
    while let Some((key, member)) = members.next() {
        if !is_marked(key) || !are_all_marked(&member) {
            return false;
        }
    }
    true
}

/// Whether every key of the value begins with `s`, at any depth. The value has each key once.
#[cycle(last)]
pub fn are_last_marked(value: &Value) -> bool {
    match value {
        Value::Array(items) => are_last_of_items_marked(items),
        Value::Object(members) => are_last_of_members_marked(members),
        _ => true,
    }
}

#[cycle(last)]
fn are_last_of_items_marked(items: &Vec<Value>) -> bool {
    for item in items {
        if !are_last_marked(item) {
            return false;
        }
    }
    true
}

#[cycle(last)]
fn are_last_of_members_marked(members: &Map<String, Value>) -> bool {
    for (key, member) in members.iter() {
        if !is_marked(key.as_str()) || !are_last_marked(member) {
            return false;
        }
    }
    true
}
