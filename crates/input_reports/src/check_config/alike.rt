//! Items of a list that say the same.

use ocpi_json::name::Name;
use ocpi_json::{Node, Nodes};
use std::iter::Take;

fn is_same(left: Option<&str>, right: Option<&str>) -> bool {
    match (left, right) {
        (Some(left), Some(right)) => left.eq_ignore_ascii_case(right),
        _ => false,
    }
}

fn text_at<'a>(node: &Node<'a>, key: Name) -> Option<&'a str> {
    node.get(key.key())?.as_str()
}

// The items are texts where there is no key, and else objects with a text at each key.
fn are_alike(left: &Node, right: &Node, keys: &[Name]) -> bool {
    if keys.is_empty() {
        return is_same(left.as_str(), right.as_str());
    }
    for key in keys {
        if !is_same(text_at(left, *key), text_at(right, *key)) {
            return false;
        }
    }
    true
}

fn is_like_one_of(node: &Node, others: Take<Nodes>, keys: &[Name]) -> bool {
    for other in others {
        if are_alike(node, &other, keys) {
            return true;
        }
    }
    false
}

/// The first item of an array that is like one before it in the texts at these keys, letters folded, or as a text where there
/// is no key.
pub fn second_alike(list: &Node, keys: &[Name]) -> Option<usize> {
    for (index, node) in list.items()?.enumerate() {
        if is_like_one_of(&node, list.items()?.take(index), keys) {
            return Some(index);
        }
    }
    None
}
