//! What a CDR costs, with its rows.

ghost use Rattle.std.specs.Prelude.{◌≡◌, ◌≤◌, length, unsigned_abs, IfOk, IfErr, Ok, Err, false};
ghost use Rattle.ocpi_types.specs.Cdr.{is_credit};
ghost use Rattle.input_reports.specs.explain_cost.Changes.{changes_over};
ghost use Rattle.input_reports.specs.explain_cost.CostText.{explanation};
ghost use Rattle.input_reports.specs.explain_cost.Costs.{whole_cost};
ghost use Rattle.input_reports.specs.CdrText.{is_no_memory};
ghost use Rattle.input_reports.specs.Ratable.{rated_price};
ghost use Rattle.input_reports.specs.explain_cost.Explained.{IsExplained, explained_cdr, explained_text};

use super::change::{Bounds, bounded, changes_over};
use super::cost_text::explanation;
use super::laws::rows_add_up;
use super::row::Row;
use super::rows::cost_rows;
use crate::cdr_text::read_cdr;
use crate::ratable::rated_price;
use crate::rating_fault::{RatingFault, refused};
use cdr_rating::first_tariff;
use exact_money::Amount;
use ocpi_json::Room;
use ocpi_types::{Cdr, Zone};
use std::alloc::{AllocError, Global};

/// What a session costs, with its rows. Sums are in units of 1/(9 * 10^12) of the currency unit.
#[derive(Drop)]
pub struct Explained {
    pub rows: Vec<Row>,
    /// What the rows add up to.
    pub sum: u128,
    /// Raised to the minimum of the session's tariff.
    pub raised: u128,
    /// Raised, and then lowered to its maximum.
    pub bounded: u128,
    /// Rounded to ten-thousandths.
    pub amount: Amount,
}

fn whole_cost(rows: &[Row]) -> u128
    requires { length rows.now ≤ 3004 }
    ensures { result ≡ whole_cost rows.now }
{
    let mut units = 0;
    for row in rows {
        units += row.cost.units();
    }
    units
}

fn with_rows(alloc: Global, cdr: &Cdr, zone: &Zone, amount: Amount) -> Result<Explained, AllocError>
    requires not_credit { is_credit cdr.now ≡ false }
    requires amount { rated_price cdr.now zone.now ≡ Ok amount }
    ensures { IfOk result (IsExplained cdr.now zone.now) }
{
    rows_add_up();
    let rows = cost_rows(alloc, cdr, zone)?;
    let sum = whole_cost(rows.as_slice());
    let by = bounded(first_tariff(cdr), sum);
    Ok(Explained {
        rows,
        sum,
        raised: by.raised,
        bounded: by.bounded,
        amount,
    })
}

/// What the session of a CDR costs by its tariffs, in the zone of its operator, with its rows.
///
/// # Errors
///
/// `CreditCdr` for a Credit CDR; those of `rated_price`; `NoMemory` if an allocation fails.
#[tactic(auto, unfolding(crate::specs::explain_cost::Explained::explained_cdr))]
pub fn explain(alloc: Global, cdr: &Cdr, zone: &Zone) -> Result<Explained, RatingFault>
    ensures explained { IfOk result (IsExplained cdr.now zone.now) }
    ensures fault { IfErr result (λ fault. is_no_memory fault ≡ false → explained_cdr zone.now cdr.now ≡ Err fault) }
{
    if cdr.is_credit() {
        return Err(RatingFault::CreditCdr);
    }
    match rated_price(cdr, zone) {
        Ok(amount) => Ok(with_rows(alloc, cdr, zone, amount)?),
        Err(refusal) => Err(refused(refusal)),
    }
}

fn text_of(alloc: Global, explained: &Explained) -> Result<Vec<u8>, AllocError>
    ensures { IfOk result (λ text. text.items ≡ explanation explained.now.rows.items
        (changes_over explained.now.sum explained.now.raised explained.now.bounded (unsigned_abs explained.now.amount)) explained.now.amount) }
{
    let by = Bounds {
        raised: explained.raised,
        bounded: explained.bounded,
    };
    let amount = explained.amount.ten_thousandths().unsigned_abs();
    let changes = changes_over(alloc, explained.sum, by, amount)?;
    explanation(
        alloc,
        explained.rows.as_slice(),
        changes.as_slice(),
        explained.amount,
    )
}

#[tactic(auto, unfolding(crate::specs::explain_cost::Explained::explained_cdr))]
fn explain_cdr(alloc: Global, cdr: &Cdr, zone: &Zone) -> Result<Vec<u8>, RatingFault>
    ensures text { IfOk result (λ text. explained_cdr zone.now cdr.now ≡ Ok text.items) }
    ensures fault { IfErr result (λ fault. is_no_memory fault ≡ false → explained_cdr zone.now cdr.now ≡ Err fault) }
{
    match explain(alloc, cdr, zone) {
        Ok(explained) => Ok(text_of(alloc, &explained)?),
        Err(fault) => Err(fault),
    }
}

/// The text that explains what the session of the CDR that a text is costs.
///
/// # Errors
///
/// Those of `read_cdr`, and those of `explain`.
#[tactic(auto, unfolding(crate::specs::explain_cost::Explained::explained_text))]
pub fn explain_text(alloc: Global, text: &[u8], zone: &Zone) -> Result<Vec<u8>, RatingFault>
    ensures text { IfOk result (λ told. explained_text text.now zone.now ≡ Ok told.items) }
    ensures fault { IfErr result (λ fault. is_no_memory fault ≡ false → explained_text text.now zone.now ≡ Err fault) }
{
    let mut room = Room::new(alloc);
    match read_cdr(alloc, &mut room, text) {
        Ok(cdr) => explain_cdr(alloc, &cdr, zone),
        Err(fault) => Err(fault),
    }
}
