//! What a command adds to the counts.

ghost use Rattle.std.specs.Prelude.{◌≡◌, ◌≤◌, ◌*◌, ◌^◌, Some};
ghost use Rattle.shared_house.specs.Inner.Tallies.{tally_of, tally_of_event};

use period_order::Outcome;
use plain_house::Event;

/// How many entries an event adds to books, to accounts and to the order, and the magnitude of the amount that it books, in
/// ten-thousandths.
#[derive(Clone, Copy)]
pub struct Tally {
    pub books: u64,
    pub accounts: u64,
    pub events: u64,
    pub amount: u64,
}

fn counts(books: u64, accounts: u64, events: u64, amount: u64) -> Tally
    ensures { result ≡ record { books = books; accounts = accounts; events = events; amount = amount } }
{
    Tally {
        books,
        accounts,
        events,
        amount,
    }
}

fn of_event(event: &Event) -> Tally
    ensures value { result ≡ tally_of_event (Some event.now) }
    ensures bounded { result.amount ≤ 10 ^ 12 * result.events }
{
    match event {
        Event::Tariff(_) => counts(1, 0, 1, 0),
        Event::Token(_) | Event::Authorised(_) | Event::Released(_) | Event::Settled(_) => {
            counts(0, 1, 1, 0)
        }
        Event::Cdr { cost, .. } => counts(1, 1, 1, cost.get()),
        Event::Credit { amount, .. } => counts(1, 1, 1, amount.magnitude()),
        Event::Closed { .. } => counts(0, 0, 1, 0),
    }
}

/// What the outcome of a command adds.
pub fn tally_of(outcome: &Outcome) -> Tally
    ensures value { result ≡ tally_of outcome.now }
    ensures bounded { result.amount ≤ 10 ^ 12 * result.events }
{
    match outcome {
        Outcome::Replied { event, .. } => match event {
            Some(event) => of_event(event),
            None => counts(0, 0, 0, 0),
        },
        Outcome::Closed { .. } => counts(0, 0, 1, 0),
        Outcome::Stated { .. } => counts(0, 0, 0, 0),
    }
}
