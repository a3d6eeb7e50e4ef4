ghost use Rattle.std.specs.Prelude.{◌≡◌, true, nat_le, nat_lt};
ghost use Rattle.std.specs.Option.{option_map_or};
ghost use Rattle.tariff_elements.specs.Matching.{is_in_bounds};

use ocpi_types::AtMost;

fn is_at_least<const MOST: u64>(least: Option<AtMost<MOST>>, amount: u128) -> bool
    ensures { result ≡ option_map_or (λ bound. nat_le bound amount) least.entry true }
{
    match least {
        Some(bound) => bound.get() as u128 <= amount,
        None => true,
    }
}

fn is_below<const MOST: u64>(limit: Option<AtMost<MOST>>, amount: u128) -> bool
    ensures { result ≡ option_map_or (λ bound. nat_lt amount bound) limit.entry true }
{
    match limit {
        Some(bound) => amount < bound.get() as u128,
        None => true,
    }
}

/// Whether the amount lies from the least, included, to the limit, excluded.
pub(crate) fn is_in_bounds<const MOST: u64>(
    least: Option<AtMost<MOST>>,
    limit: Option<AtMost<MOST>>,
    amount: u128,
) -> bool
    ensures { result ≡ is_in_bounds least.entry limit.entry amount }
{
    is_at_least(least, amount) && is_below(limit, amount)
}
