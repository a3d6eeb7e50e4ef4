ghost use Rattle.std.specs.Prelude.{◌≡◌, ◌/◌, ◌<◌, ◌≤◌, ◌∷◌, ◌++◌, drop, decimal, IsAscii};
ghost use Rattle.exact_money.specs.Amount.{amount_text, four_digits};

use crate::amount::Amount;
use itoa::write_digits;
use std::str;

// A minus, 15 digits, a point and four decimals, and some more.
const MOST_BYTES: usize = 24;

const POINT: usize = 19;

/// Room for the text of an amount, which then takes no memory.
#[derive(Clone, Copy)]
pub struct AmountBuffer {
    bytes: [u8; MOST_BYTES],
}

fn write_decimals(size: u64, bytes: &mut [u8; MOST_BYTES])
    ensures { drop 19 bytes.new ≡ 46 ∷ four_digits size }
{
    write_digits(10_000 + size % 10_000, bytes, MOST_BYTES);
    bytes[POINT] = b'.';
}

// Writes the text of an amount of that size at the end, and returns where it starts.
fn write_size(size: u64, bytes: &mut [u8; MOST_BYTES]) -> usize
    ensures written { drop result bytes.new ≡ decimal (size / 10000) ++ (46 ∷ four_digits size) }
    ensures room { 0 < result }
    ensures within { result ≤ 19 }
{
    write_decimals(size, bytes);
    write_digits(size / 10_000, bytes, POINT)
}

fn write_signed(amount: i64, bytes: &mut [u8; MOST_BYTES]) -> usize
    ensures written { drop result bytes.new ≡ amount_text amount }
    ensures ascii { IsAscii (amount_text amount) }
    ensures within { result ≤ 19 }
{
    let start = write_size(amount.unsigned_abs(), bytes);
    if amount < 0 {
        bytes[start - 1] = b'-';
        start - 1
    } else {
        start
    }
}

impl AmountBuffer {
    ghost use Rattle.std.specs.Prelude.{◌≡◌};
    ghost use Rattle.exact_money.specs.Amount.{amount_text};

    pub fn new() -> AmountBuffer {
        AmountBuffer {
            bytes: [0; MOST_BYTES],
        }
    }

    /// The text of the amount, as `-5.0000`.
    pub fn format(&mut self, amount: Amount) -> &str
        ensures { result.now ≡ amount_text amount }
    {
        let start = write_signed(amount.ten_thousandths(), &mut self.bytes);
        unsafe { str::from_utf8_unchecked(&self.bytes[start..]) }
    }
}
