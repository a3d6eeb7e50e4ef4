ghost use Rattle.std.specs.Prelude.{◌≡◌};

use super::measure::{Measure, up_to_step};
use exact_money::Exact;
use ocpi_types::members::Quantity;
use ocpi_types::{PriceComponent, StepSize};

/// A volume at the price of the component that is active.
#[derive(Clone, Copy)]
pub struct Priced {
    pub price: Quantity,
    pub step_size: StepSize,
    pub volume: u128,
}

/// The sum over priced volumes of one kind.
#[derive(Clone, Copy)]
pub struct Tally {
    pub measure: Measure,
    pub cost: Exact,
    pub volume: u128,
    /// The last that is above 0.
    pub last: Option<Priced>,
}

impl Priced {
    ghost use Rattle.std.specs.Prelude.{◌≡◌};

    /// A volume at the price of a component.
    pub(crate) fn new(component: &PriceComponent, volume: u128) -> Priced
        ensures { result ≡ record { price = component.now.price; step_size = component.now.step_size; volume = volume } }
    {
        Priced {
            price: component.price,
            step_size: component.step_size,
            volume,
        }
    }
}

impl Tally {
    ghost use Rattle.std.specs.Prelude.{◌≡◌, ◌+◌, ◌*◌, ◌^◌, ◌≤◌, []};
    ghost use Rattle.std.specs.Option.{option_copied};
    ghost use Rattle.cdr_rating.specs.Inner.Tally.{tally_of, most_of, with_one, added, step_cost_of};

    /// The tally of no volume.
    pub(crate) fn new(measure: Measure) -> Tally
        ensures { result ≡ tally_of measure [] }
    {
        Tally {
            measure,
            cost: Exact::zero(),
            volume: 0,
            last: None,
        }
    }

    fn with_one(self, priced: Priced) -> Tally
        requires within_period { priced.volume ≤ most_of self.measure }
        requires cost { self.cost ≤ 10 ^ 36 }
        requires volume { self.volume ≤ 10 ^ 20 }
        ensures value { result ≡ with_one self priced }
        ensures cost { result.cost ≤ self.cost + 10 ^ 33 }
        ensures volume { result.volume ≤ self.volume + 10 ^ 17 }
    {
        Tally {
            measure: self.measure,
            cost: self
                .cost
                .add(self.measure.cost(priced.price, priced.volume)),
            volume: self.volume + priced.volume,
            last: if 0 < priced.volume {
                Some(priced)
            } else {
                self.last
            },
        }
    }

    /// This tally with the volume of one more period, if a component is active there.
    pub(crate) fn add(self, active: Option<&PriceComponent>, volume: u128) -> Tally
        requires within_period { volume ≤ most_of self.measure }
        requires cost { self.cost ≤ 10 ^ 36 }
        requires volume { self.volume ≤ 10 ^ 20 }
        ensures value { result ≡ added self (option_copied active.entry) volume }
        ensures cost { result.cost ≤ self.cost + 10 ^ 33 }
        ensures volume { result.volume ≤ self.volume + 10 ^ 17 }
    {
        match active {
            Some(component) => self.with_one(Priced::new(component, volume)),
            None => self,
        }
    }

    /// What rounding the whole volume up to its step costs.
    pub(crate) fn step_cost(&self) -> Exact
        ensures value { result ≡ step_cost_of self.now }
        ensures bound { result ≤ 10 ^ 33 }
    {
        match self.last {
            Some(last) => {
                let volume = up_to_step(self.measure.step(last.step_size), self.volume);
                self.measure.cost(last.price, volume)
            }
            None => Exact::zero(),
        }
    }
}
