ghost use Rattle.std.specs.Prelude.{◌≡◌, ℕ, ◌+◌, ◌*◌, ◌^◌, ◌≤◌, ◌<◌, ℤ, pos, ◌≤ℤ◌, unsigned_abs, IfSome, IfNone};
ghost use Rattle.exact_money.specs.Exact.{IsRoundedHalfUp};

use crate::amount::Amount;
use crate::millionths::Millionths;
use std::marker::Model;

/// A sum with nothing rounded, in units of 1/(9 * 10^12) of the currency unit: at most 10^37 of them.
///
/// Prices per kWh, per hour and flat, in millionths, all come to whole such units.
#[derive(Clone, Copy, PartialEq, Eq, PartialOrd, Ord)]
pub struct Exact {
    units: u128,
}

impl Model for Exact {
    ghost use Rattle.std.specs.Prelude.{ℕ, ◌≤◌, ◌^◌};

    ghost Value = { ℕ };

    ghost view = { λ e. e.units };

    ghost invariant = { λ e. e.units ≤ 10 ^ 37 };

    ghost inverse = { λ n. record { units = n } };
}

impl Exact {
    pub fn zero() -> Exact
        ensures { result ≡ 0 }
    {
        Exact { units: 0 }
    }

    /// A price per kWh for a volume in millionths of a kWh.
    pub fn energy(price: Millionths, volume: u128) -> Exact
        requires not_negative { pos 0 ≤ℤ price }
        requires small { volume ≤ 10 ^ 20 }
        ensures { result ≡ 9 * unsigned_abs price * volume }
    {
        Exact {
            units: 9 * size_of(price) * volume,
        }
    }

    /// A price per hour for a time in seconds.
    pub fn time(price: Millionths, seconds: u128) -> Exact
        requires not_negative { pos 0 ≤ℤ price }
        requires small { seconds ≤ 10 ^ 18 }
        ensures { result ≡ 2500 * unsigned_abs price * seconds }
    {
        Exact {
            units: 2_500 * size_of(price) * seconds,
        }
    }

    /// A price that is due once.
    pub fn flat(price: Millionths) -> Exact
        requires { pos 0 ≤ℤ price }
        ensures { result ≡ 9000000 * unsigned_abs price }
    {
        Exact {
            units: 9_000_000 * size_of(price),
        }
    }

    pub fn add(self, other: Exact) -> Exact
        requires { self + other ≤ 10 ^ 37 }
        ensures { result ≡ self + other }
    {
        Exact {
            units: self.units + other.units,
        }
    }

    /// The amount to four decimals, where half of the last decimal and more goes up.
    ///
    /// `None` is the answer where that is above 10^12 ten-thousandths.
    pub fn round_half_up(self) -> Option<Amount>
        ensures not_negative { IfSome result (λ amount. pos 0 ≤ℤ amount) }
        ensures rounded { IfSome result (λ amount. IsRoundedHalfUp self (unsigned_abs amount)) }
        ensures within_limit { IfSome result (λ amount. unsigned_abs amount ≤ 10 ^ 12) }
        ensures too_large { IfNone result ((size : ℕ) → IsRoundedHalfUp self size → 10 ^ 12 < size) }
    {
        let size = (self.units + 450_000_000) / 900_000_000;
        if size <= 1_000_000_000_000 {
            Some(Amount::from_ten_thousandths(size as i64))
        } else {
            None
        }
    }
}

fn size_of(price: Millionths) -> u128
    ensures size { result ≡ unsigned_abs price }
    ensures small { result ≤ 10 ^ 15 }
{
    u128::from(price.get().unsigned_abs())
}
