//! The beginning of a JSON text, byte by byte (RFC 8259, sections 2 to 7).

use super::number_part::NumberPart;
use super::text_part::TextPart;
use std::alloc::{AllocError, Global};

/// How deep arrays and objects may nest.
const MAX_DEPTH: u32 = 127;

/// A literal name.
#[derive(Clone, Copy)]
pub enum Literal {
    True,
    False,
    Null,
}

impl Literal {
    fn text(self) -> &'static str {
        match self {
            Literal::True => "true",
            Literal::False => "false",
            Literal::Null => "null",
        }
    }
}

/// What comes next.
#[derive(Clone, Copy)]
pub enum Next {
    Value,
    /// A value, or the end of the array.
    FirstItem,
    /// A name, or the end of the object.
    FirstName,
    Name,
    Colon,
    /// A comma, or the end of what is around; nothing at the top.
    AfterValue,
    /// The rest of a string, which may be a name.
    Text { part: TextPart, is_name: bool },
    Number(NumberPart),
    /// The rest of a literal after so many bytes.
    Literal { literal: Literal, bytes: usize },
}

/// A beginning of a JSON text.
#[derive(Clone, Copy)]
pub struct Scan {
    next: Next,
    /// How many arrays and objects are open.
    depth: u32,
    /// The open ones, the innermost in the lowest bit: 1 for an object.
    objects: u128,
}

fn is_space(byte: u8) -> bool {
    matches!(byte, b' ' | b'\t' | b'\n' | b'\r')
}

fn first_of_literal(byte: u8) -> Option<Literal> {
    match byte {
        b't' => Some(Literal::True),
        b'f' => Some(Literal::False),
        b'n' => Some(Literal::Null),
        _ => None,
    }
}

impl Scan {
    /// Returns the beginning without bytes.
    pub fn new() -> Scan {
        Scan {
            next: Next::Value,
            depth: 0,
            objects: 0,
        }
    }

    /// Returns the beginning with one byte more; none if no JSON text begins so.
    pub fn after(self, byte: u8) -> Option<Scan> {
        match self.next {
            Next::Text { part, is_name } => self.in_text(part, is_name, byte),
            Next::Number(part) => self.in_number(part, byte),
            Next::Literal { literal, bytes } => self.in_literal(literal, bytes, byte),
            _ => self.between(byte),
        }
    }

    fn then(self, next: Next) -> Scan {
        Scan { next, ..self }
    }

    fn in_object(self) -> bool {
        self.objects & 1 == 1
    }

    fn open(self, is_object: bool) -> Option<Scan> {
        if self.depth >= MAX_DEPTH {
            return None;
        }
        let (next, lowest) = if is_object {
            (Next::FirstName, 1)
        } else {
            (Next::FirstItem, 0)
        };
        Some(Scan {
            next,
            depth: self.depth + 1,
            objects: self.objects << 1 | lowest,
        })
    }

    fn close(self) -> Scan {
        Scan {
            next: Next::AfterValue,
            depth: self.depth.saturating_sub(1),
            objects: self.objects >> 1,
        }
    }

    fn between(self, byte: u8) -> Option<Scan> {
        if is_space(byte) {
            return Some(self);
        }
        match self.next {
            Next::Value => self.value(byte),
            Next::FirstItem if byte == b']' => Some(self.close()),
            Next::FirstItem => self.value(byte),
            Next::FirstName if byte == b'}' => Some(self.close()),
            Next::FirstName | Next::Name => self.name(byte),
            Next::Colon if byte == b':' => Some(self.then(Next::Value)),
            Next::AfterValue => self.after_value(byte),
            _ => None,
        }
    }

    fn value(self, byte: u8) -> Option<Scan> {
        if let Some(part) = NumberPart::first(byte) {
            return Some(self.then(Next::Number(part)));
        }
        if let Some(literal) = first_of_literal(byte) {
            return Some(self.then(Next::Literal { literal, bytes: 1 }));
        }
        match byte {
            b'"' => Some(self.begin_text(false)),
            b'[' => self.open(false),
            b'{' => self.open(true),
            _ => None,
        }
    }

    fn name(self, byte: u8) -> Option<Scan> {
        if byte == b'"' {
            Some(self.begin_text(true))
        } else {
            None
        }
    }

    fn begin_text(self, is_name: bool) -> Scan {
        self.then(Next::Text {
            part: TextPart::Plain,
            is_name,
        })
    }

    fn after_value(self, byte: u8) -> Option<Scan> {
        if self.depth == 0 {
            return None;
        }
        match (byte, self.in_object()) {
            (b',', true) => Some(self.then(Next::Name)),
            (b',', false) => Some(self.then(Next::Value)),
            (b'}', true) | (b']', false) => Some(self.close()),
            _ => None,
        }
    }

    fn in_text(self, part: TextPart, is_name: bool, byte: u8) -> Option<Scan> {
        if matches!(part, TextPart::Plain) && byte == b'"' {
            let next = if is_name {
                Next::Colon
            } else {
                Next::AfterValue
            };
            return Some(self.then(next));
        }
        let part = part.after(byte)?;
        Some(self.then(Next::Text { part, is_name }))
    }

    fn in_number(self, part: NumberPart, byte: u8) -> Option<Scan> {
        if let Some(part) = part.after(byte) {
            return Some(self.then(Next::Number(part)));
        }
        if !part.may_end() {
            return None;
        }
        self.then(Next::AfterValue).between(byte)
    }

    fn in_literal(self, literal: Literal, bytes: usize, byte: u8) -> Option<Scan> {
        let text = literal.text().as_bytes();
        if text.get(bytes).copied() != Some(byte) {
            return None;
        }
        let bytes = bytes.saturating_add(1);
        if bytes < text.len() {
            return Some(self.then(Next::Literal { literal, bytes }));
        }
        Some(self.then(Next::AfterValue))
    }

    // Adds the end of the value that has begun.
    fn put_value(&self, out: &mut Vec<u8>) -> Result<(), AllocError> {
        match self.next {
            Next::Value => out.extend_from_slice(b"0"),
            Next::FirstItem | Next::FirstName | Next::AfterValue => Ok(()),
            Next::Name => out.extend_from_slice(b"\"\":0"),
            Next::Colon => out.extend_from_slice(b":0"),
            Next::Text { part, is_name } => {
                out.extend_from_slice(part.rest().as_bytes())?;
                out.extend_from_slice(if is_name { b":0" } else { b"" })
            }
            Next::Number(part) => out.extend_from_slice(part.rest().as_bytes()),
            Next::Literal { literal, bytes } => {
                let text = literal.text().as_bytes();
                out.extend_from_slice(&text[bytes.min(text.len())..])
            }
        }
    }

    /// Returns bytes that make a JSON text of the beginning.
    ///
    /// # Errors
    ///
    /// `AllocError` if an allocation fails.
    pub fn rest(&self, alloc: Global) -> Result<Vec<u8>, AllocError> {
        let mut out = Vec::new(alloc);
        self.put_value(&mut out)?;
        let mut objects = self.objects;
        for _ in 0..self.depth {
            out.push(if objects & 1 == 1 { b'}' } else { b']' })?;
            objects >>= 1;
        }
        Ok(out)
    }
}
