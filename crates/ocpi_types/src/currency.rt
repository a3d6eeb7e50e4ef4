ghost use Rattle.std.specs.Prelude.{◌≡◌};
ghost use Rattle.std.specs.Char.{is_ascii_uppercase};
ghost use Rattle.ocpi_types.specs.Currency.{currency_of, same_currency};

use super::different::Alike;
use ocpi_json::Expected;
use ocpi_json::objects::FromText;
use std::alloc::AllocError;
use std::marker::Model;
use std::str;

/// A currency by its ISO 4217 code of three letters A to Z, compared exactly (OCPI 2.2.1, CDR object, `currency`).
#[derive(PartialEq, Eq, PartialOrd, Ord, Hash)]
pub struct Currency {
    letters: [u8; 3],
}

impl Model for Currency {
    ghost use Rattle.std.specs.Prelude.{◌≡◌, List, ℕ, true};
    ghost use Rattle.ocpi_types.specs.Currency.{is_currency};

    ghost Value = { List ℕ };

    ghost view = { λ currency. currency.letters };

    ghost invariant = { λ currency. is_currency currency.letters ≡ true };

    ghost inverse = { λ letters. record { letters = letters } };
}

impl Clone for Currency {
    ghost use Rattle.std.specs.Prelude.{◌≡◌, ⊤};

    ghost is_clone = { λ x y. y ≡ x };

    ghost is_infallible = { λ _. ⊤ };

    fn clone(&self) -> Result<Currency, AllocError> {
        Ok(*self)
    }
}

impl Copy for Currency {}

fn is_capital(byte: u8) -> bool
    ensures { result ≡ is_ascii_uppercase byte }
{
    byte.is_ascii_uppercase()
}

impl Currency {
    /// The currency that a text names, if it is three letters A to Z.
    pub fn new(text: &str) -> Option<Currency>
        ensures { result ≡ currency_of text.now }
    {
        match text.as_bytes() {
            [first, second, third] => {
                if is_capital(*first) && is_capital(*second) && is_capital(*third) {
                    Some(Currency {
                        letters: [*first, *second, *third],
                    })
                } else {
                    None
                }
            }
            _ => None,
        }
    }

    pub fn as_str(&self) -> &str
        ensures { result.now ≡ self.now }
    {
        unsafe { str::from_utf8_unchecked(&self.letters) }
    }

    /// The same currency.
    pub fn is(&self, other: &Currency) -> bool
        ensures { result ≡ same_currency self.now other.now }
    {
        self.letters.as_slice() == other.letters.as_slice()
    }
}

impl FromText for Currency {
    ghost use Rattle.ocpi_types.specs.Currency.{currency_of};
    ghost use Rattle.ocpi_json.specs.declared.expected.Expected.TheVariants as expected;

    ghost of_text = { currency_of };

    ghost expects = { expected.Currency };

    fn from_text(text: &str) -> Option<Currency> {
        Currency::new(text)
    }

    fn expected() -> Expected {
        Expected::Currency
    }
}

impl Alike for Currency {
    ghost use Rattle.ocpi_types.specs.Currency.{same_currency};

    ghost alike = { same_currency };

    fn is_like(&self, other: &Currency) -> bool {
        self.is(other)
    }
}
