//! What is said of a CDR or a Credit CDR by what is booked and owed.

ghost use Rattle.std.specs.Prelude.{◌≡◌, ◌<◌, ◌^◌, false, neg_ℤ, IfErr, Some};
ghost use Rattle.cdr_checks.specs.CdrConditions.{is_within_tolerance};
ghost use Rattle.plain_house.specs.Booked.{shown_booked};
ghost use Rattle.plain_house.specs.Posting.{above, booked_already, credit_difference, is_in_window, taken_back};
ghost use Rattle.plain_house.specs.Replies.{IsTold, is_refusal_no_memory};

use super::answer::Answer;
use super::booked::BookedCdr;
use super::booked_amount::BookedAmount;
use cdr_checks::is_within_tolerance;
use exact_money::Amount;
use ocpi_types::{AtMost, Cdr, Config, Refusal, same_cdr};

/// In what a Credit CDR differs from what its original asks for.
#[derive(Clone, Copy)]
pub enum CreditDifference {
    Provider,
    Currency,
    /// Its cost is above 0.
    AboveZero,
    /// Its cost is farther than the tolerance from the negated amount of its original.
    Cost,
}

/// The reply to a CDR whose id is booked already.
pub fn reply_to_booked(found: &BookedCdr<'_>, cdr: &Cdr) -> Result<Answer, Refusal>
    ensures value { Some result ≡ booked_already cdr.now (Some (shown_booked found.now)) }
    ensures told { IsTold result }
{
    if same_cdr(found.cdr, cdr) {
        Ok(Answer::Repeated {
            amount: found.amount.amount(),
            period: found.period,
        })
    } else {
        Err(Refusal::Conflict)
    }
}

fn is_in_window(window: Option<AtMost<10_000>>, original: u64, current: u64) -> bool
    ensures { result ≡ is_in_window window original current }
{
    match window {
        Some(window) => current <= original.saturating_add(window.get()),
        None => true,
    }
}

fn has_negated_cost(config: &Config, credit: &Cdr, amount: BookedAmount) -> bool
    ensures { result ≡ is_within_tolerance config.now.tolerance credit.now.total_cost (neg_ℤ amount) }
{
    let taken_back = amount.negated().amount();
    is_within_tolerance(config.tolerance, credit.total_cost, taken_back)
}

/// Returns the first way in which a Credit CDR differs from what its original asks for: the original's provider and currency,
/// a cost of at most 0, and a cost within the tolerance of the original's negated amount.
#[tactic(auto, unfolding(crate::specs::Posting::credit_difference))]
pub fn credit_difference(
    config: &Config,
    credit: &Cdr,
    original: &BookedCdr<'_>,
) -> Option<CreditDifference>
    ensures { result ≡ credit_difference config.now credit.now (shown_booked original.now) }
{
    let (ours, theirs) = (&credit.cdr_token, &original.cdr.cdr_token);
    if !ours.provider.is(&theirs.provider) {
        Some(CreditDifference::Provider)
    } else if !credit.currency.is(&original.cdr.currency) {
        Some(CreditDifference::Currency)
    } else if 0 < credit.total_cost.get() {
        Some(CreditDifference::AboveZero)
    } else if !has_negated_cost(config, credit, original.amount) {
        Some(CreditDifference::Cost)
    } else {
        None
    }
}

/// The negated amount of an original, or why a Credit CDR of the period cannot take it back.
///
/// # Errors
///
/// `CreditOfCredit`, `AlreadyCredited`, `TooLate` or `CreditDiffers`, the first that holds.
pub fn taken_back(
    config: &Config,
    period: u64,
    credit: &Cdr,
    is_credited: bool,
    original: &BookedCdr<'_>,
) -> Result<BookedAmount, Refusal>
    ensures told { IfErr result (λ refusal. is_refusal_no_memory refusal ≡ false) }
    ensures value { result ≡ taken_back config.now period credit.now is_credited (shown_booked original.now) }
{
    if original.cdr.is_credit() {
        return Err(Refusal::CreditOfCredit);
    }
    if is_credited {
        return Err(Refusal::AlreadyCredited);
    }
    if !is_in_window(config.credit_window, original.period, period) {
        return Err(Refusal::TooLate {
            original: original.period,
            current: period,
        });
    }
    if credit_difference(config, credit, original).is_some() {
        return Err(Refusal::CreditDiffers);
    }
    Ok(original.amount.negated())
}

/// The refusal where an exposure is above its limit, both in ten-thousandths.
pub fn above(limit: u64, exposure: u64, pair: bool) -> Option<Refusal>
    requires limit { limit < 2 ^ 63 }
    requires exposure { exposure < 2 ^ 63 }
    ensures { result ≡ above limit exposure pair }
{
    if limit < exposure {
        Some(Refusal::OverLimit {
            exposure: Amount::from_ten_thousandths(exposure as i64),
            limit: Amount::from_ten_thousandths(limit as i64),
            pair,
        })
    } else {
        None
    }
}
