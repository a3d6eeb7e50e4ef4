//! Parts of a JSON string.

/// The part of a string that comes next, by its bytes so far.
#[derive(Clone, Copy)]
pub enum TextPart {
    /// A character, an escape or the closing quote.
    Plain,
    /// The letter of an escape.
    Escape,
    /// All four digits of `\u`.
    Four,
    /// Three digits.
    Three,
    /// Three digits after a `d`, so a surrogate if the next is 8 or more.
    ThreeAfterD,
    /// Two digits.
    Two,
    /// One digit.
    One,
    /// Two digits of the first half of a surrogate pair.
    HighTwo,
    /// One digit of the first half.
    HighOne,
    /// The backslash of the second half.
    LowEscape,
    /// The `u` of the second half.
    LowU,
    /// The `d` of the second half.
    LowD,
    /// The digit C to F of the second half.
    LowC,
}

fn is_d(byte: u8) -> bool {
    byte == b'd' || byte == b'D'
}

fn after_escape(byte: u8) -> Option<TextPart> {
    match byte {
        b'"' | b'\\' | b'/' | b'b' | b'f' | b'n' | b'r' | b't' => Some(TextPart::Plain),
        b'u' => Some(TextPart::Four),
        _ => None,
    }
}

fn after_d(byte: u8) -> Option<TextPart> {
    match byte {
        b'0'..=b'7' => Some(TextPart::Two),
        b'8' | b'9' | b'a' | b'b' | b'A' | b'B' => Some(TextPart::HighTwo),
        _ => None,
    }
}

// The part, if the byte may come here.
fn only_if(may_be: bool, part: TextPart) -> Option<TextPart> {
    if may_be { Some(part) } else { None }
}

impl TextPart {
    /// Returns the part after a byte that does not close the string; none if the byte cannot come here.
    pub fn after(self, byte: u8) -> Option<TextPart> {
        let is_digit = byte.is_ascii_hexdigit();
        match self {
            TextPart::Plain if byte == b'\\' => Some(TextPart::Escape),
            TextPart::Plain => only_if(b' ' <= byte, TextPart::Plain),
            TextPart::Escape => after_escape(byte),
            TextPart::Four if is_d(byte) => Some(TextPart::ThreeAfterD),
            TextPart::Four => only_if(is_digit, TextPart::Three),
            TextPart::Three => only_if(is_digit, TextPart::Two),
            TextPart::ThreeAfterD => after_d(byte),
            TextPart::Two => only_if(is_digit, TextPart::One),
            TextPart::One => only_if(is_digit, TextPart::Plain),
            TextPart::HighTwo => only_if(is_digit, TextPart::HighOne),
            TextPart::HighOne => only_if(is_digit, TextPart::LowEscape),
            TextPart::LowEscape => only_if(byte == b'\\', TextPart::LowU),
            TextPart::LowU => only_if(byte == b'u', TextPart::LowD),
            TextPart::LowD => only_if(is_d(byte), TextPart::LowC),
            TextPart::LowC => only_if(is_digit && byte.to_ascii_lowercase() >= b'c', TextPart::Two),
        }
    }

    /// Returns bytes that end the string.
    pub fn rest(self) -> &'static str {
        match self {
            TextPart::Plain => "\"",
            TextPart::Escape => "n\"",
            TextPart::Four => "0000\"",
            TextPart::Three | TextPart::ThreeAfterD => "000\"",
            TextPart::Two => "00\"",
            TextPart::One => "0\"",
            TextPart::HighTwo => "00\\udc00\"",
            TextPart::HighOne => "0\\udc00\"",
            TextPart::LowEscape => "\\udc00\"",
            TextPart::LowU => "udc00\"",
            TextPart::LowD => "dc00\"",
            TextPart::LowC => "c00\"",
        }
    }
}
