ghost use Rattle.cdr_rating.specs.Law.{EnergySplitsAtNoCost, RoundedIsHalfUp, SameCdrsCostTheSame, UpToStepIsLeast};

use ocpi_types::laws::same_cdrs_are_equal_folded;

/// A law: a volume is rounded up to a step by the least that makes it a multiple of the step.
pub fn up_to_step_is_least()
    ensures { UpToStepIsLeast }
{}

/// A law: an amount is rounded to the nearest ten-thousandth, where half goes up.
pub fn rounded_is_half_up()
    ensures { RoundedIsHalfUp }
{}

/// A law of energy at one price and step size: the energy of a session costs the same, what rounding it up to the step
/// costs included, where one of its priced volumes is split over two, one behind the other, of that price and step size.
///
/// It says nothing of time: seconds are rounded in each period, and of the two kinds of time one alone is rounded up.
pub fn energy_splits_at_no_cost()
    ensures { EnergySplitsAtNoCost }
{}

/// A law: CDRs with the same content cost the same.
pub fn same_cdrs_cost_the_same()
    ensures { SameCdrsCostTheSame }
{
    same_cdrs_are_equal_folded();
}
