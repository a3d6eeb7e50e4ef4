//! Authorising a token.

ghost use Rattle.std.specs.Prelude.{◌≡◌, ℕ, true, false, [], ◌∷◌, Some, None};
ghost use Rattle.cdr_checks.specs.declared.request.Command.TheVariants.{Authorize as AuthorizeCommand};
ghost use Rattle.plain_house.specs.House.{allows, full_for, hold_for, over_credit, unless_covered};
ghost use Rattle.plain_house.specs.declared.event.Event.TheVariants as event;
ghost use Rattle.plain_house.specs.Verdict.{unless};
ghost use Rattle.period_order.specs.Decided.{AccountTakes, AccountTakesAny, Decides, event_of, order_with, replied_by, seen};
ghost use Rattle.period_order.specs.Order.{current_of};

use super::full::full_for_provider;
use super::outcomes::{accepted, refused, replied};
use crate::decided::Outcome;
use crate::numbers::in_account;
use crate::order::Order;
use crate::order_entry::OrderEntry;
use cdr_checks::Authorize;
use ocpi_types::{Config, Refusal};
use plain_house::{Answer, Event, Hold};
use provider_account::Account;

/// The hold of an authorisation that passes no limit.
#[tactic(auto, using(crate::proofs::TakesLemmas::hold_within))]
pub fn hold_within(config: &Config, ask: &Authorize, account: &Account) -> Hold
    requires { over_credit config.now ask.now account.now.entries ≡ None }
    ensures value { result ≡ hold_for config.now ask.now account.now.entries }
    ensures takes { (period : ℕ) → AccountTakes account.now.entries period (event.Authorised result) }
{
    let _limit = config.limit(&ask.provider, &ask.currency).get();
    account.hold_for(config, ask)
}

// Authorises a valid token.
fn grant(config: &Config, ask: &Authorize, account: &Account, order: &mut Order) -> Outcome
    requires { order.old.has_room ≡ true }
    ensures outcome { result ≡ replied_by (unless (full_for config.now (seen [] account.now.entries order.old) ask.now.provider
        ∷ unless_covered (over_credit config.now ask.now account.now.entries) ∷ []) (allows (hold_for config.now ask.now account.now.entries))) }
    ensures takes { AccountTakesAny (Some account.now) (current_of order.old) (event_of result) }
    ensures order { order.new ≡ order_with config.now None (Some account.now) order.old result }
{
    if let Some(what) = full_for_provider(config, &ask.provider, account, order) {
        return refused(Refusal::Full { what });
    }
    if let Some(over) = account.over_credit(config, ask) {
        return replied(Ok(Answer::NoCredit(over)));
    }
    let hold = hold_within(config, ask, account);
    let reference = hold.reference;
    let place = in_account(config, &ask.provider, account.entries().len());
    order.append(OrderEntry::InAccount { account: place });
    accepted(Answer::Allowed { reference }, Event::Authorised(hold))
}

pub fn authorize(config: &Config, ask: Authorize, account: &Account, order: &mut Order) -> Outcome
    requires { order.old.has_room ≡ true }
    ensures outcome { Decides config.now None (Some account.now) order.old (AuthorizeCommand ask) result }
    ensures order { order.new ≡ order_with config.now None (Some account.now) order.old result }
{
    match account.validity(&ask.provider, &ask.uid, ask.kind) {
        Some(true) => grant(config, &ask, account, order),
        Some(false) => replied(Ok(Answer::Blocked)),
        None => refused(Refusal::UnknownToken),
    }
}
