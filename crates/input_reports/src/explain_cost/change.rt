//! What the minimum, the maximum and the rounding make of a sum.

ghost use Rattle.std.specs.Prelude.{◌≡◌, ◌∷◌, ◌++◌, IfOk, OnOk};
ghost use Rattle.std.specs.Option.{option_copied, option_to_list};
ghost use Rattle.cdr_rating.specs.Price.{bounded, lowered, raised};
ghost use Rattle.input_reports.specs.explain_cost.Changes.{change_between, changes_over, raised_by};

use ocpi_types::Tariff;
use ocpi_types::members::Quantity;
use std::alloc::{AllocError, Global};

/// Why a sum is changed.
#[derive(Clone, Copy)]
pub enum Reason {
    /// It is raised to the tariff's minimum.
    Minimum,
    /// It is lowered to the tariff's maximum.
    Maximum,
    /// It is rounded to ten-thousandths.
    Rounding,
}

/// By how many units a sum is changed.
#[derive(Clone, Copy)]
pub struct Change {
    pub reason: Reason,
    /// The sum becomes less.
    pub is_less: bool,
    pub units: u128,
}

/// What the bounds of a tariff make of a sum.
#[derive(Clone, Copy)]
pub struct Bounds {
    /// Raised to the minimum.
    pub raised: u128,
    /// Raised, and then lowered to the maximum.
    pub bounded: u128,
}

fn raised(least: Option<Quantity>, units: u128) -> u128
    ensures { result ≡ raised least units }
{
    match least {
        Some(least) => units.max(9_000_000 * u128::from(least.get())),
        None => units,
    }
}

fn lowered(most: Option<Quantity>, units: u128) -> u128
    ensures { result ≡ lowered most units }
{
    match most {
        Some(most) => units.min(9_000_000 * u128::from(most.get())),
        None => units,
    }
}

/// What the minimum and the maximum make of a sum.
pub fn bounded(tariff: Option<&Tariff>, sum: u128) -> Bounds
    ensures raised { result.raised ≡ raised_by (option_copied tariff.entry) sum }
    ensures bounded { result.bounded ≡ bounded (option_copied tariff.entry) sum }
{
    match tariff {
        Some(tariff) => {
            let raised = raised(tariff.min_price, sum);
            Bounds {
                raised,
                bounded: lowered(tariff.max_price, raised),
            }
        }
        None => Bounds {
            raised: sum,
            bounded: sum,
        },
    }
}

/// The change from one number of units to another, if there is one.
fn change_between(reason: Reason, before: u128, after: u128) -> Option<Change>
    ensures { option_to_list result ≡ change_between reason before after }
{
    if before < after {
        Some(Change {
            reason,
            is_less: false,
            units: after - before,
        })
    } else if after < before {
        Some(Change {
            reason,
            is_less: true,
            units: before - after,
        })
    } else {
        None
    }
}

fn add_change(
    changes: &mut Vec<Change>,
    reason: Reason,
    before: u128,
    after: u128,
) -> Result<(), AllocError>
    ensures { OnOk result (changes.new.items ≡ changes.old.items ++ change_between reason before after) }
{
    if let Some(change) = change_between(reason, before, after) {
        changes.push(change)?;
    }
    Ok(())
}

/// The changes from a sum over its bounds to an amount in ten-thousandths.
pub fn changes_over(
    alloc: Global,
    sum: u128,
    by: Bounds,
    amount: u64,
) -> Result<Vec<Change>, AllocError>
    ensures { IfOk result (λ changes. changes.items ≡ changes_over sum by.raised by.bounded amount) }
{
    let amount = 900_000_000 * u128::from(amount);
    let mut changes = Vec::new(alloc);
    add_change(&mut changes, Reason::Minimum, sum, by.raised)?;
    add_change(&mut changes, Reason::Maximum, by.raised, by.bounded)?;
    add_change(&mut changes, Reason::Rounding, by.bounded, amount)?;
    Ok(changes)
}
