//! Settling what a provider owes of a period.

ghost use Rattle.std.specs.Prelude.{◌≡◌, true, Some, None};
ghost use Rattle.cdr_checks.specs.declared.request.Command.TheVariants.{Settle};
ghost use Rattle.period_order.specs.Decided.{Decides, order_with};

use super::full::full_for_provider;
use super::outcomes::{accepted, refused};
use crate::decided::Outcome;
use crate::numbers::in_account;
use crate::order::Order;
use crate::order_entry::OrderEntry;
use cdr_checks::Settlement;
use ocpi_types::{Config, Refusal};
use plain_house::{Answer, Event};
use provider_account::Account;

pub fn settle(
    config: &Config,
    settlement: Settlement,
    account: &Account,
    order: &mut Order,
) -> Outcome
    requires { order.old.has_room ≡ true }
    ensures outcome { Decides config.now None (Some account.now) order.old (Settle settlement) result }
    ensures order { order.new ≡ order_with config.now None (Some account.now) order.old result }
{
    if order.current() <= settlement.period {
        return refused(Refusal::PeriodOpen);
    }
    if account.is_settled(&settlement) {
        return refused(Refusal::AlreadySettled);
    }
    if let Some(what) = full_for_provider(config, &settlement.provider, account, order) {
        return refused(Refusal::Full { what });
    }
    let amount = account.settled_debt(&settlement);
    let place = in_account(config, &settlement.provider, account.entries().len());
    order.append(OrderEntry::InAccount { account: place });
    accepted(Answer::Settled { amount }, Event::Settled(settlement))
}
