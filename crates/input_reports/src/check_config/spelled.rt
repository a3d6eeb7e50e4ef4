//! Texts as they are shown in a line.

use std::fmt;

/// A text from a configuration: as it is where it is printable ASCII without spaces and quotes, and else in quotes and with escapes.
#[derive(Clone, Copy)]
pub struct Spelled<'a> {
    pub text: &'a str,
}

fn is_of_a_word(byte: u8) -> bool {
    byte.is_ascii_graphic() && byte != b'"' && byte != b'\\'
}

fn is_word(text: &str) -> bool {
    !text.is_empty() && text.as_bytes().iter().all(|byte| is_of_a_word(*byte))
}

/// A character in quotes, as values in reports have it.
#[derive(Clone, Copy)]
struct Escaped {
    character: char,
}

impl fmt::Display for Escaped {
    fn fmt<W: fmt::Write>(&self, f: &mut fmt::Formatter<W>) -> fmt::Result {
        match self.character {
            '"' => write!(f, "\\\""),
            '\\' => write!(f, "\\\\"),
            ' '..='~' => write!(f, "{}", self.character),
            other => write!(f, "\\u{{{:x}}}", u32::from(other)),
        }
    }
}

impl fmt::Display for Spelled<'_> {
    fn fmt<W: fmt::Write>(&self, f: &mut fmt::Formatter<W>) -> fmt::Result {
        let text = self.text;
        if is_word(text) {
            return write!(f, "{text}");
        }
        write!(f, "\"")?;
        for character in text.chars() {
            let escaped = Escaped { character };
            write!(f, "{escaped}")?;
        }
        write!(f, "\"")
    }
}
