ghost use Rattle.std.specs.Prelude.{◌≡◌, ◌^◌, ◌++◌, ℤ, pos, neg_ℤ, ◌<ℤ◌, Some, OnOk, OnErr};
ghost use Rattle.exact_money.specs.Amount.{amount_text, AmountTextReadsBack};

use crate::amount_buffer::AmountBuffer;
use std::alloc::AllocError;
use std::fmt;
use std::marker::Model;

/// An amount of money in ten-thousandths of the currency unit.
#[derive(Clone, Copy, Debug, PartialEq, Eq, PartialOrd, Ord)]
pub struct Amount {
    ten_thousandths: i64,
}

impl Model for Amount {
    ghost use Rattle.std.specs.Prelude.{ℤ};

    ghost Value = { ℤ };

    ghost view = { λ a. a.ten_thousandths };

    ghost inverse = { λ z. record { ten_thousandths = z } };
}

impl Amount {
    pub fn from_ten_thousandths(ten_thousandths: i64) -> Amount
        ensures { result ≡ ten_thousandths }
    {
        Amount { ten_thousandths }
    }

    pub fn ten_thousandths(self) -> i64
        ensures { result ≡ self }
    {
        self.ten_thousandths
    }

    pub fn negated(self) -> Amount
        requires { neg_ℤ (pos (2 ^ 63)) <ℤ self }
        ensures { result ≡ neg_ℤ self }
    {
        Amount {
            ten_thousandths: -self.ten_thousandths,
        }
    }

    /// Appends the text, as `-5.0000`.
    pub fn write(self, out: &mut Vec<u8>) -> Result<(), AllocError>
        ensures ok { OnOk result (out.new.items ≡ out.old.items ++ amount_text self) }
        ensures err { OnErr result (out.new.items ≡ out.old.items) }
    {
        let mut buffer = AmountBuffer::new();
        out.extend_from_slice(buffer.format(self).as_bytes())
    }
}

impl fmt::Display for Amount {
    ghost output = { λ amount. Some (amount_text amount) };

    fn fmt<W: fmt::Write>(&self, f: &mut fmt::Formatter<W>) -> fmt::Result {
        let sign = if self.ten_thousandths < 0 { "-" } else { "" };
        let size = self.ten_thousandths.unsigned_abs();
        let whole = size / 10_000;
        let decimals = size % 10_000;
        write!(f, "{sign}{whole}.{decimals:04}")
    }
}

/// States that the text of an amount, read as a decimal, is the amount.
pub fn amount_text_reads_back()
    ensures { AmountTextReadsBack }
{}
