//! Storing a tariff version.

ghost use Rattle.std.specs.Prelude.{◌≡◌, true, Some, None};
ghost use Rattle.cdr_checks.specs.declared.request.Command.TheVariants.{PutTariff};
ghost use Rattle.period_order.specs.Decided.{Decides, order_with};

use super::full::full_for_tariff;
use super::outcomes::{accepted, refused, replied};
use crate::decided::Outcome;
use crate::numbers::in_book;
use crate::order::Order;
use crate::order_entry::OrderEntry;
use ocpi_types::{Config, Refusal, Shared, Tariff};
use operator_book::Book;
use plain_house::{Answer, Event};

pub fn put_tariff(
    config: &Config,
    tariff: Shared<Tariff>,
    book: &Book,
    order: &mut Order,
) -> Outcome
    requires { order.old.has_room ≡ true }
    ensures outcome { Decides config.now (Some book.now) None order.old (PutTariff tariff) result }
    ensures order { order.new ≡ order_with config.now (Some book.now) None order.old result }
{
    if let Some(reply) = book.judge_tariff(&tariff) {
        return replied(reply);
    }
    if let Some(what) = full_for_tariff(config, &tariff.operator, book, order) {
        return refused(Refusal::Full { what });
    }
    let place = in_book(config, &tariff.operator, book.entries().len());
    order.append(OrderEntry::InBook { book: place });
    accepted(Answer::Stored, Event::Tariff(tariff))
}
