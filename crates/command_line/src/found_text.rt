//! What a configuration or a line has in the place of a member, as text.

use ocpi_json::Node;
use std::alloc::{AllocError, Global};

/// Behind so many bytes a text is cut.
const MOST_BYTES: usize = 50;

fn push(text: &mut String, character: char) -> Result<(), AllocError> {
    match character {
        '"' => text.push_str("\\\""),
        '\\' => text.push_str("\\\\"),
        ' '..='~' => text.push(character),
        other => write!(text, "\\u{{{:x}}}", u32::from(other)),
    }
}

// Adds the characters, and tells whether that is all of them.
fn push_all(text: &mut String, characters: &str) -> Result<bool, AllocError> {
    for character in characters.chars() {
        if MOST_BYTES < text.len() {
            text.push_str("..")?;
            return Ok(false);
        }
        push(text, character)?;
    }
    Ok(true)
}

fn push_string(text: &mut String, string: &str) -> Result<(), AllocError> {
    text.push('"')?;
    if push_all(text, string)? {
        text.push('"')?;
    }
    Ok(())
}

fn push_value(text: &mut String, value: &Node) -> Result<(), AllocError> {
    if let Some(string) = value.as_str() {
        return push_string(text, string);
    }
    if let Some(number) = value.as_number() {
        push_all(text, number)?;
        return Ok(());
    }
    if let Some(items) = value.items() {
        return write!(text, "a list of {}", items.len());
    }
    text.push_str(match value.as_bool() {
        Some(true) => "true",
        Some(false) => "false",
        None if value.is_null() => "null",
        None => "an object",
    })
}

/// What stands there, in printable ASCII: a string in quotes and with escapes, a number as it is written, of a list how many
/// items it has, of an object that it is one; `nothing` where nothing does. It is cut behind 51 bytes.
pub fn text_of_found(alloc: Global, value: Option<&Node>) -> Result<String, AllocError> {
    let mut text = String::new(alloc);
    match value {
        Some(value) => push_value(&mut text, value)?,
        None => text.push_str("nothing")?,
    }
    Ok(text)
}
