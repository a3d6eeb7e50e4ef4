//! What a call from C is answered.

ghost use Rattle.std.specs.Prelude.{◌≡◌};
ghost use Rattle.clear_embedded.specs.Codes.{code_number};

/// What a call from C is answered. C gets its number.
#[derive(Clone, Copy)]
pub enum Code {
    Done,
    /// An allocation failed, and nothing is done.
    NoMemory,
    /// No house is open.
    Closed,
    /// A house is open already.
    Open,
    /// The configuration is no JSON, or longer than 1,048,576 bytes.
    NoJson,
    /// A member of the configuration is at fault.
    Member,
    /// The line has a newline, or is longer than 1,048,576 bytes.
    NoLine,
    /// An answer is kept, which has to be taken first.
    Kept,
    /// The line is answered, and its answer kept, since it is longer than the buffer.
    TooSmall,
    /// The line is answered, and its answer kept, since an allocation for its text failed.
    NotWritten,
    /// No answer is kept.
    NothingKept,
    /// The last line was not refused, or no line was answered.
    NotRefused,
}

impl Code {
    /// The number by which C knows it. 2 is `CLEAR_NULL` of `clear.h`, which no function here returns.
    pub fn number(self) -> u32
        ensures { result ≡ code_number self }
    {
        match self {
            Code::Done => 0,
            Code::NoMemory => 1,
            Code::Closed => 3,
            Code::Open => 4,
            Code::NoJson => 5,
            Code::Member => 6,
            Code::NoLine => 7,
            Code::Kept => 8,
            Code::TooSmall => 9,
            Code::NotWritten => 10,
            Code::NothingKept => 11,
            Code::NotRefused => 12,
        }
    }
}

/// A code, and the length of the text that it is about; 0 if it is about none.
#[derive(Clone, Copy)]
pub struct Outcome {
    pub code: Code,
    pub length: usize,
}

impl Outcome {
    /// A code that is about no text.
    pub(crate) fn of(code: Code) -> Outcome
        ensures { result ≡ record { code = code; length = 0 } }
    {
        Outcome { code, length: 0 }
    }
}
