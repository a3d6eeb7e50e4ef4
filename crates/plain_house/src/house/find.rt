//! Where a CDR stands.

ghost use Rattle.std.specs.Prelude.{◌≡◌, length};
ghost use Rattle.plain_house.specs.Booked.{booked_as};
ghost use Rattle.plain_house.specs.Entries.{book_entries};
ghost use Rattle.plain_house.specs.House.{found_of};
ghost use Rattle.plain_house.specs.Replies.{stamped};

use super::replies::{refused, replied};
use crate::answer::{Answer, Refused, Replied};
use crate::booked::{booked_as, is_credited};
use crate::event::Event;
use cdr_checks::Find;
use ocpi_types::Refusal;

pub fn find(events: &[Event], find: Find) -> Result<Replied, Refused>
    ensures { result ≡ stamped (length events.now) (found_of find (book_entries events.now)
        (booked_as find.operator find.id (book_entries events.now))).reply }
{
    let at = events.len();
    match booked_as(events, &find.operator, &find.id) {
        Some(found) => {
            let answer = Answer::Found {
                amount: found.amount.amount(),
                period: found.period,
                credited: is_credited(events, &find.operator, &find.id),
            };
            Ok(replied(at, answer))
        }
        None => Err(refused(at, Refusal::UnknownCdr)),
    }
}
