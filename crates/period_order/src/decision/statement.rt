//! The statement of a party.

ghost use Rattle.std.specs.Prelude.{◌≡◌, None};
ghost use Rattle.cdr_checks.specs.declared.request.Command.TheVariants.{Statement};
ghost use Rattle.period_order.specs.Decided.{Decides, event_of};

use super::outcomes::refused;
use crate::decided::Outcome;
use crate::order::Order;
use cdr_checks::StatementOf;
use ocpi_types::{Config, Refusal};

pub fn statement(config: &Config, ask: StatementOf, order: &Order) -> Outcome
    ensures outcome { Decides config.now None None order.now (Statement ask) result }
    ensures event { event_of result ≡ None }
{
    if order.current() <= ask.period {
        return refused(Refusal::PeriodOpen);
    }
    Outcome::Stated { ask }
}
