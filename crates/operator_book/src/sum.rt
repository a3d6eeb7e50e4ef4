use exact_money::Amount;
use plain_house::BookedAmount;
use std::marker::Model;

/// What obligations add up to, in ten-thousandths of the currency unit.
#[derive(Clone, Copy)]
pub struct Sum {
    ten_thousandths: i128,
}

impl Model for Sum {
    ghost use Rattle.std.specs.Prelude.{ℤ};

    ghost Value = { ℤ };

    ghost view = { λ sum. sum.ten_thousandths };

    ghost inverse = { λ z. record { ten_thousandths = z } };
}

impl Sum {
    ghost use Rattle.std.specs.Prelude.{◌≡◌, ◌<◌, ◌^◌, ◌+ℤ◌, pos, unsigned_abs};

    pub fn zero() -> Sum
        ensures { result ≡ pos 0 }
    {
        Sum { ten_thousandths: 0 }
    }

    pub fn with(self, booked: BookedAmount) -> Sum
        requires { unsigned_abs self < 2 ^ 126 }
        ensures { result ≡ self +ℤ booked }
    {
        let amount = booked.amount().ten_thousandths();
        Sum {
            ten_thousandths: self.ten_thousandths + i128::from(amount),
        }
    }

    pub fn amount(self) -> Amount
        requires { unsigned_abs self < 2 ^ 63 }
        ensures { result ≡ self }
    {
        Amount::from_ten_thousandths(self.ten_thousandths as i64)
    }
}
