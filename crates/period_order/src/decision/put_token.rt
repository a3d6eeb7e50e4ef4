//! Putting a token.

ghost use Rattle.std.specs.Prelude.{◌≡◌, true, Some, None};
ghost use Rattle.cdr_checks.specs.declared.request.Command.TheVariants.{PutToken};
ghost use Rattle.period_order.specs.Decided.{Decides, order_with};

use super::full::full_for_provider;
use super::outcomes::{accepted, refused};
use crate::decided::Outcome;
use crate::numbers::in_account;
use crate::order::Order;
use crate::order_entry::OrderEntry;
use ocpi_types::{Config, Refusal, Token};
use plain_house::{Answer, Event};
use provider_account::Account;

pub fn put_token(config: &Config, token: Token, account: &Account, order: &mut Order) -> Outcome
    requires { order.old.has_room ≡ true }
    ensures outcome { Decides config.now None (Some account.now) order.old (PutToken token) result }
    ensures order { order.new ≡ order_with config.now None (Some account.now) order.old result }
{
    if let Some(what) = full_for_provider(config, &token.provider, account, order) {
        return refused(Refusal::Full { what });
    }
    let place = in_account(config, &token.provider, account.entries().len());
    order.append(OrderEntry::InAccount { account: place });
    accepted(Answer::Stored, Event::Token(token))
}
