//! Posting a CDR or a Credit CDR.

ghost use Rattle.std.specs.Prelude.{◌≡◌, ◌≤◌, ◌^◌, ◌++◌, [], ◌∷◌, true, length, pos, Some, None, Ok};
ghost use Rattle.cdr_checks.specs.declared.request.Command.TheVariants.{Post};
ghost use Rattle.plain_house.specs.declared.entry.AccountEntry.TheVariants.{Charge as ChargeEntry};
ghost use Rattle.plain_house.specs.Entries.{charge_of};
ghost use Rattle.plain_house.specs.Exposure.{exposure_of, of_provider};
ghost use Rattle.plain_house.specs.Posting.{over_limit};
ghost use Rattle.plain_house.specs.House.{cdr_posted, credit_posted, credit_taken, full_for_cdr};
ghost use Rattle.plain_house.specs.Verdict.{accepts, refused_for, unless};
ghost use Rattle.plain_house.specs.declared.answer.Answer.TheVariants.{Accepted};
ghost use Rattle.plain_house.specs.declared.event.Event.TheVariants.{Cdr as CdrEvent};
ghost use Rattle.period_order.specs.declared.order_entry.OrderEntry.TheVariants as entry;
ghost use Rattle.period_order.specs.Decided.{AccountTakesAny, Decides, event_of, order_with, replied_by, seen};
ghost use Rattle.period_order.specs.Order.{current_of};
ghost use Rattle.period_order.specs.Places.{in_account, in_book};

use super::full::full_for_cdr;
use super::outcomes::{accepted, refused, replied};
use crate::decided::Outcome;
use crate::numbers::{in_account, in_book};
use crate::order::Order;
use crate::order_entry::OrderEntry;
use cdr_checks::Checked;
use ocpi_types::{Cdr, Config, Cost, Refusal, Shared};
use operator_book::Book;
use plain_house::{Answer, BookedAmount, Charge, Event, charge_of, events_are_of_their_command};
use provider_account::Account;

fn entry_of(config: &Config, cdr: &Cdr, book: &Book, account: &Account) -> OrderEntry
    ensures { result ≡ entry.InBoth (in_book config.now cdr.now.operator (length book.now.entries))
        (in_account config.now cdr.now.cdr_token.provider (length account.now.entries)) }
{
    OrderEntry::InBoth {
        book: in_book(config, &cdr.operator, book.entries().len()),
        account: in_account(config, &cdr.cdr_token.provider, account.entries().len()),
    }
}

/// With the charge added an exposure is above its limit.
#[tactic(auto, using(crate::proofs::TakesLemmas::charge_within))]
pub fn over_limit(config: &Config, account: &Account, charge: &Charge) -> Option<Refusal>
    ensures value { result ≡ over_limit config.now charge.now account.now.entries }
    ensures within { result ≡ None → exposure_of (of_provider charge.now.provider charge.now.currency)
        (account.now.entries ++ ChargeEntry charge.now ∷ []) ≤ 10 ^ 15 }
{
    let _limit = config.limit(&charge.provider, &charge.currency).get();
    account.over_limit(config, charge)
}

// Books a CDR that its operator's book takes.
fn take_cdr(
    config: &Config,
    cdr: Shared<Cdr>,
    cost: Cost,
    book: &Book,
    account: &Account,
    order: &mut Order,
) -> Outcome
    requires { order.old.has_room ≡ true }
    ensures outcome { result ≡ replied_by (unless (full_for_cdr config.now (seen book.now.entries account.now.entries order.old) cdr
        ∷ refused_for (over_limit config.now (charge_of cdr cost (current_of order.old)) account.now.entries) ∷ [])
        (accepts (Accepted (pos cost) (current_of order.old)) (CdrEvent cdr cost))) }
    ensures takes { AccountTakesAny (Some account.now) (current_of order.old) (event_of result) }
    ensures order { order.new ≡ order_with config.now (Some book.now) (Some account.now) order.old result }
{
    if let Some(what) = full_for_cdr(config, &cdr, book, account, order) {
        return refused(Refusal::Full { what });
    }
    let period = order.current();
    let charge = charge_of(&cdr, cost, period);
    if let Some(refusal) = over_limit(config, account, &charge) {
        return refused(refusal);
    }
    order.append(entry_of(config, &cdr, book, account));
    let amount = BookedAmount::of_cost(cost).amount();
    accepted(
        Answer::Accepted { amount, period },
        Event::Cdr { cdr, cost },
    )
}

// Books a Credit CDR that its operator's book takes.
fn take_credit(
    config: &Config,
    credit: Shared<Cdr>,
    booked: BookedAmount,
    book: &Book,
    account: &Account,
    order: &mut Order,
) -> Outcome
    requires { order.old.has_room ≡ true }
    ensures outcome { result ≡ replied_by (credit_taken config.now (seen book.now.entries account.now.entries order.old) credit (Ok booked)) }
    ensures takes { AccountTakesAny (Some account.now) (current_of order.old) (event_of result) }
    ensures order { order.new ≡ order_with config.now (Some book.now) (Some account.now) order.old result }
{
    if let Some(what) = full_for_cdr(config, &credit, book, account, order) {
        return refused(Refusal::Full { what });
    }
    let period = order.current();
    order.append(entry_of(config, &credit, book, account));
    let amount = booked.amount();
    let event = Event::Credit {
        cdr: credit,
        amount: booked,
    };
    accepted(Answer::Accepted { amount, period }, event)
}

#[tactic(auto, using(crate::proofs::PostLemmas::cdr_replied, crate::proofs::PostLemmas::cdr_left))]
fn post_cdr(
    config: &Config,
    cdr: Shared<Cdr>,
    cost: Cost,
    book: &Book,
    account: &Account,
    order: &mut Order,
) -> Outcome
    requires { order.old.has_room ≡ true }
    ensures outcome { result ≡ replied_by (cdr_posted config.now (seen book.now.entries account.now.entries order.old) cdr cost) }
    ensures takes { AccountTakesAny (Some account.now) (current_of order.old) (event_of result) }
    ensures order { order.new ≡ order_with config.now (Some book.now) (Some account.now) order.old result }
{
    match book.judge_cdr(&cdr) {
        Some(reply) => replied(reply),
        None => take_cdr(config, cdr, cost, book, account, order),
    }
}

#[tactic(auto, using(crate::proofs::PostLemmas::credit_replied, crate::proofs::PostLemmas::credit_left))]
fn post_credit(
    config: &Config,
    credit: Shared<Cdr>,
    book: &Book,
    account: &Account,
    order: &mut Order,
) -> Outcome
    requires { order.old.has_room ≡ true }
    ensures outcome { result ≡ replied_by (credit_posted config.now (seen book.now.entries account.now.entries order.old) credit) }
    ensures takes { AccountTakesAny (Some account.now) (current_of order.old) (event_of result) }
    ensures order { order.new ≡ order_with config.now (Some book.now) (Some account.now) order.old result }
{
    match book.judge_credit(config, order.current(), &credit) {
        Ok(amount) => take_credit(config, credit, amount, book, account, order),
        Err(reply) => replied(reply),
    }
}

pub fn post(
    config: &Config,
    checked: Checked,
    book: &Book,
    account: &Account,
    order: &mut Order,
) -> Outcome
    requires { order.old.has_room ≡ true }
    ensures outcome { Decides config.now (Some book.now) (Some account.now) order.old (Post checked) result }
    ensures order { order.new ≡ order_with config.now (Some book.now) (Some account.now) order.old result }
{
    events_are_of_their_command();
    let cost = checked.cost();
    let cdr = checked.into_cdr();
    match cost {
        Some(cost) => post_cdr(config, cdr, cost, book, account, order),
        None => post_credit(config, cdr, book, account, order),
    }
}
