ghost use Rattle.std.specs.Prelude.{◌≡◌, ◌*◌, ◌^◌, ◌≤◌, ℤ, pos};
ghost use Rattle.cdr_rating.specs.Price.{up_to_step};
ghost use Rattle.cdr_rating.specs.Inner.Tally.{factor_of, units_of, most_of};

use exact_money::{Exact, Millionths};
use ocpi_types::StepSize;
use ocpi_types::members::Quantity;

/// What a volume is measured in: millionths of a kWh, or seconds.
#[derive(Clone, Copy, PartialEq, Eq)]
pub enum Measure {
    Energy,
    Time,
}

/// The price as a number that may be below 0.
fn millionths_of(price: Quantity) -> Millionths
    ensures { result ≡ pos price }
{
    Millionths::from_millionths(price.get() as i64).unwrap()
}

/// A price that is due once.
pub(crate) fn flat(price: Quantity) -> Exact
    ensures value { result ≡ 9_000_000 * price }
    ensures bound { result ≤ 10 ^ 22 }
{
    Exact::flat(millionths_of(price))
}

/// The least volume that makes the whole a multiple of the step, all in one unit; a step of 0 rounds nothing.
pub fn up_to_step(step: u128, volume: u128) -> u128
    ensures value { result ≡ up_to_step step volume }
    ensures bound { result ≤ step }
{
    if step == 0 {
        0
    } else {
        (step - volume % step) % step
    }
}

impl Measure {
    ghost use Rattle.std.specs.Prelude.{◌≡◌, ◌*◌, ◌^◌, ◌≤◌};
    ghost use Rattle.cdr_rating.specs.Inner.Tally.{factor_of, units_of, most_of};

    /// What a volume costs at a price.
    pub(crate) fn cost(self, price: Quantity, volume: u128) -> Exact
        requires { volume ≤ most_of self }
        ensures value { result ≡ factor_of self * price * volume }
        ensures bound { result ≤ 10 ^ 33 }
    {
        let price = millionths_of(price);
        match self {
            Measure::Energy => Exact::energy(price, volume),
            Measure::Time => Exact::time(price, volume),
        }
    }

    /// A step in the unit of the volume: a component's step of energy is in Wh, and one of time in seconds.
    pub(crate) fn step(self, step_size: StepSize) -> u128
        ensures value { result ≡ units_of self * step_size }
        ensures bound { result ≤ 10 ^ 12 }
    {
        let step_size = u128::from(step_size.get());
        match self {
            Measure::Energy => 1_000 * step_size,
            Measure::Time => step_size,
        }
    }
}
