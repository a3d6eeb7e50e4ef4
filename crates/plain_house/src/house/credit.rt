//! What a Credit CDR takes back.

ghost use Rattle.std.specs.Prelude.{◌≡◌, false, option_map, IfErr};
ghost use Rattle.plain_house.specs.Booked.{shown_booked};
ghost use Rattle.plain_house.specs.Entries.{book_entries};
ghost use Rattle.plain_house.specs.Posting.{credited_amount, original_of};
ghost use Rattle.plain_house.specs.Replies.{is_refusal_no_memory};

use crate::booked::{BookedCdr, booked_as, is_credited};
use crate::booked_amount::BookedAmount;
use crate::event::Event;
use crate::posting::taken_back;
use ocpi_types::{Cdr, Config, Refusal};

fn original_of<'a>(events: &'a [Event], credit: &Cdr) -> Option<BookedCdr<'a>>
    ensures { option_map shown_booked result ≡ original_of credit.now (book_entries events.now) }
{
    match &credit.credit {
        Some(id) => booked_as(events, &credit.operator, id),
        None => None,
    }
}

/// The negated amount of the CDR that a Credit CDR names.
///
/// # Errors
///
/// `UnknownOriginal`, `CreditOfCredit`, `AlreadyCredited`, `TooLate` or `CreditDiffers`, the first that holds.
pub fn credited_amount(
    config: &Config,
    events: &[Event],
    period: u64,
    credit: &Cdr,
) -> Result<BookedAmount, Refusal>
    ensures value { result ≡ credited_amount config.now period credit.now (book_entries events.now) }
    ensures told { IfErr result (λ refusal. is_refusal_no_memory refusal ≡ false) }
{
    match original_of(events, credit) {
        Some(original) => {
            let is_credited = is_credited(events, &original.cdr.operator, &original.cdr.id);
            taken_back(config, period, credit, is_credited, &original)
        }
        None => Err(Refusal::UnknownOriginal),
    }
}
