ghost use Rattle.std.specs.Prelude.{◌≡◌, ◌≤ℤ◌, ◌^◌, neg_ℤ, pos};

use exact_money::Amount;
use ocpi_types::Cost;
use std::marker::Model;

/// The amount at which a CDR or a Credit CDR is booked: at most 10^12 ten-thousandths either way.
#[derive(Clone, Copy, PartialEq, Eq)]
pub struct BookedAmount {
    amount: Amount,
}

impl Model for BookedAmount {
    ghost use Rattle.std.specs.Prelude.{ℤ, ◌≤ℤ◌, ◌^◌, neg_ℤ, pos};

    ghost Value = { ℤ };

    ghost view = { λ booked. booked.amount };

    ghost invariant = { λ booked. (neg_ℤ (pos (10 ^ 12)) ≤ℤ booked.amount) × (booked.amount ≤ℤ pos (10 ^ 12)) };

    ghost inverse = { λ z. record { amount = z } };
}

impl BookedAmount {
    ghost use Rattle.std.specs.Prelude.{◌≡◌, ◌≤◌, ◌≤ℤ◌, ◌^◌, neg_ℤ, pos, unsigned_abs};

    /// What a session costs.
    pub fn of_cost(cost: Cost) -> BookedAmount
        ensures { result ≡ pos cost }
    {
        let amount = Amount::from_ten_thousandths(cost.get() as i64);
        BookedAmount { amount }
    }

    pub fn negated(self) -> BookedAmount
        ensures { result ≡ neg_ℤ self }
    {
        let amount = self.amount.negated();
        BookedAmount { amount }
    }

    /// How much it is, either way: at most 10^12.
    pub fn magnitude(self) -> u64
        ensures value { result ≡ unsigned_abs self }
        ensures most { result ≤ 10 ^ 12 }
    {
        self.amount.ten_thousandths().unsigned_abs()
    }

    pub fn amount(self) -> Amount
        ensures value { result ≡ self }
        ensures least { neg_ℤ (pos (10 ^ 12)) ≤ℤ result }
        ensures most { result ≤ℤ pos (10 ^ 12) }
    {
        self.amount
    }
}
