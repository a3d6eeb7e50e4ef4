//! Giving a hold back.

ghost use Rattle.std.specs.Prelude.{◌≡◌, true, Some, None};
ghost use Rattle.cdr_checks.specs.declared.request.Command.TheVariants.{Release as ReleaseCommand};
ghost use Rattle.period_order.specs.Decided.{Decides, order_with};

use super::full::full_for_provider;
use super::outcomes::{accepted, refused};
use crate::decided::Outcome;
use crate::numbers::in_account;
use crate::order::Order;
use crate::order_entry::OrderEntry;
use cdr_checks::Release;
use exact_money::Amount;
use ocpi_types::{Config, Refusal};
use plain_house::{Answer, Event};
use provider_account::Account;

pub fn release(config: &Config, release: Release, account: &Account, order: &mut Order) -> Outcome
    requires { order.old.has_room ≡ true }
    ensures outcome { Decides config.now None (Some account.now) order.old (ReleaseCommand release) result }
    ensures order { order.new ≡ order_with config.now None (Some account.now) order.old result }
{
    let Some(hold) = account.released_hold(&release) else {
        return refused(Refusal::UnknownHold);
    };
    if let Some(what) = full_for_provider(config, &release.provider, account, order) {
        return refused(Refusal::Full { what });
    }
    let amount = Amount::from_ten_thousandths(hold.amount.get() as i64);
    let place = in_account(config, &release.provider, account.entries().len());
    order.append(OrderEntry::InAccount { account: place });
    accepted(Answer::Released { amount }, Event::Released(release))
}
