//! What a CDR costs that is given as JSON.

ghost use Rattle.std.specs.Prelude.{◌≡◌, IfOk, IfErr, Ok, Err, false};
ghost use Rattle.input_reports.specs.CdrText.{is_no_memory};
ghost use Rattle.input_reports.specs.Rate.{rated_cdr, rated_text};

use crate::cdr_text::read_cdr;
use crate::ratable::rated_price;
use crate::rating_fault::{RatingFault, refused};
use exact_money::Amount;
use ocpi_json::Room;
use ocpi_types::{Cdr, Zone};
use std::alloc::Global;

#[tactic(auto, unfolding(crate::specs::Rate::rated_cdr))]
fn rate_cdr(cdr: &Cdr, zone: &Zone) -> Result<Amount, RatingFault>
    ensures { result ≡ rated_cdr zone.now cdr.now }
{
    if cdr.is_credit() {
        return Err(RatingFault::CreditCdr);
    }
    match rated_price(cdr, zone) {
        Ok(amount) => Ok(amount),
        Err(refusal) => Err(refused(refusal)),
    }
}

/// What the session of the CDR that a text is costs by its tariffs, in the zone of its operator.
///
/// # Errors
///
/// Those of `read_cdr`; `CreditCdr` for a Credit CDR; those of `rated_price`.
#[tactic(auto, unfolding(crate::specs::Rate::rated_text))]
pub fn rate_text(alloc: Global, text: &[u8], zone: &Zone) -> Result<Amount, RatingFault>
    ensures amount { IfOk result (λ amount. rated_text text.now zone.now ≡ Ok amount) }
    ensures fault { IfErr result (λ fault. is_no_memory fault ≡ false → rated_text text.now zone.now ≡ Err fault) }
{
    let mut room = Room::new(alloc);
    match read_cdr(alloc, &mut room, text) {
        Ok(cdr) => rate_cdr(&cdr, zone),
        Err(fault) => Err(fault),
    }
}
