//! Closing a period.

ghost use Rattle.std.specs.Prelude.{◌≡◌, true, None};
ghost use Rattle.cdr_checks.specs.declared.request.Command.TheVariants.{Close as CloseCommand};
ghost use Rattle.period_order.specs.Decided.{Decides, order_with};

use super::outcomes::refused;
use crate::decided::Outcome;
use crate::order::Order;
use cdr_checks::Close;
use ocpi_types::Config;

pub fn close(config: &Config, close: Close, order: &mut Order) -> Outcome
    requires { order.old.has_room ≡ true }
    ensures outcome { Decides config.now None None order.old (CloseCommand close) result }
    ensures order { order.new ≡ order_with config.now None None order.old result }
{
    let period = close.period;
    match order.cut(config, period) {
        Ok(_) => Outcome::Closed { period },
        Err(refusal) => refused(refusal),
    }
}
