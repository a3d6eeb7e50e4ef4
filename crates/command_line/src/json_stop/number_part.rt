//! Parts of a JSON number.

/// The last part of a number so far.
#[derive(Clone, Copy)]
pub enum NumberPart {
    Minus,
    /// The whole part, which is 0.
    Zero,
    /// The whole part, which begins with 1 to 9.
    Whole,
    Point,
    Fraction,
    /// The `e` of an exponent.
    E,
    ExponentSign,
    Exponent,
}

impl NumberPart {
    /// Returns the part of a number that begins with this byte.
    pub fn first(byte: u8) -> Option<NumberPart> {
        match byte {
            b'-' => Some(NumberPart::Minus),
            b'0' => Some(NumberPart::Zero),
            b'1'..=b'9' => Some(NumberPart::Whole),
            _ => None,
        }
    }

    /// Whether a number may end here.
    pub fn may_end(self) -> bool {
        matches!(
            self,
            NumberPart::Zero | NumberPart::Whole | NumberPart::Fraction | NumberPart::Exponent
        )
    }

    /// Returns the part with this byte; none if the number cannot have it here.
    pub fn after(self, byte: u8) -> Option<NumberPart> {
        match (self, byte) {
            (NumberPart::Minus, b'0') => Some(NumberPart::Zero),
            (NumberPart::Minus, b'1'..=b'9') => Some(NumberPart::Whole),
            (NumberPart::Whole, b'0'..=b'9') => Some(NumberPart::Whole),
            (NumberPart::Zero | NumberPart::Whole, b'.') => Some(NumberPart::Point),
            (NumberPart::Point | NumberPart::Fraction, b'0'..=b'9') => Some(NumberPart::Fraction),
            (NumberPart::Zero | NumberPart::Whole | NumberPart::Fraction, b'e' | b'E') => {
                Some(NumberPart::E)
            }
            (NumberPart::E, b'+' | b'-') => Some(NumberPart::ExponentSign),
            (NumberPart::E | NumberPart::ExponentSign | NumberPart::Exponent, b'0'..=b'9') => {
                Some(NumberPart::Exponent)
            }
            _ => None,
        }
    }

    /// Returns bytes that end the number.
    pub fn rest(self) -> &'static str {
        if self.may_end() { "" } else { "0" }
    }
}
