//! Exact costs.

use std::marker::Model;

/// What a row costs, in units of 1/(9 * 10^12) of the currency unit: at most 10^33 of them.
#[derive(Clone, Copy)]
pub struct Cost {
    units: u128,
}

impl Model for Cost {
    ghost use Rattle.std.specs.Prelude.{ℕ, ◌≤◌, ◌^◌};

    ghost Value = { ℕ };

    ghost view = { λ cost. cost.units };

    ghost invariant = { λ cost. cost.units ≤ 10 ^ 33 };

    ghost inverse = { λ units. record { units = units } };
}

impl Cost {
    ghost use Rattle.std.specs.Prelude.{◌≡◌, ◌≤◌, ◌^◌};

    pub fn new(units: u128) -> Cost
        requires { units ≤ 10 ^ 33 }
        ensures { result ≡ units }
    {
        Cost { units }
    }

    pub fn units(self) -> u128
        ensures value { result ≡ self }
        ensures bound { result ≤ 10 ^ 33 }
    {
        self.units
    }
}
