//! Posting a CDR or a Credit CDR.

ghost use Rattle.std.specs.Prelude.{◌≡◌, ◌<◌, ◌≤◌, ◌^◌, [], ◌∷◌, ◌++◌, Ok, pos};
ghost use Rattle.ocpi_types.specs.Config.{pair_limit_of};
ghost use Rattle.cdr_checks.specs.declared.request.Command.TheVariants.{Post};
ghost use Rattle.plain_house.specs.Entries.{account_entries, book_entries, charge_of, period_of};
ghost use Rattle.plain_house.specs.Exposure.{exposure_of, of_pair};
ghost use Rattle.plain_house.specs.Known.{known};
ghost use Rattle.plain_house.specs.House.{Does, cdr_posted, credit_posted, credit_taken, full_for_cdr};
ghost use Rattle.plain_house.specs.LegalLists.{KeepsLimits};
ghost use Rattle.plain_house.specs.Posting.{above, above_if_any, credited_amount, over_limit};
ghost use Rattle.plain_house.specs.Replies.{Follows};
ghost use Rattle.plain_house.specs.Verdict.{accepts, refused_for, unless};
ghost use Rattle.plain_house.specs.declared.answer.Answer.TheVariants.{Accepted};
ghost use Rattle.plain_house.specs.declared.entry.AccountEntry.TheVariants as account;
ghost use Rattle.plain_house.specs.declared.event.Event.TheVariants.{Cdr as CdrEvent};

use super::credit::credited_amount;
use super::full::full_for_cdr;
use super::replies::{add, refused};
use crate::answer::{Answer, Refused, Replied};
use crate::booked::booked_as;
use crate::booked_amount::BookedAmount;
use crate::debts::exposure_of;
use crate::entry::{Charge, charge_of};
use crate::event::Event;
use crate::periods::period_of;
use crate::posting::{above, reply_to_booked};
use crate::replies::stamped;
use crate::scope::Scope;
use crate::tariffs::lacks_registered;
use cdr_checks::Checked;
use ocpi_types::{Cdr, Config, Cost, Refusal, Shared};

// The refusal where an exposure with the charge added is above its limit.
fn above_with(
    limit: u64,
    events: &[Event],
    scope: &Scope,
    charge: &Charge,
    pair: bool,
) -> Option<Refusal>
    requires limit { limit ≤ 10 ^ 15 }
    requires cost { charge.now.cost ≤ 10 ^ 12 }
    requires exposure { exposure_of scope.now (account_entries events.now) ≤ limit }
    ensures { result ≡ above limit (exposure_of scope.now (account_entries events.now ++ account.Charge charge.now ∷ [])) pair }
{
    above(limit, exposure_of(events, scope, Some(charge)), pair)
}

fn over_pair_limit(config: &Config, events: &[Event], charge: &Charge) -> Option<Refusal>
    requires { KeepsLimits config.now (account_entries events.now) }
    ensures { result ≡ above_if_any (pair_limit_of config.now charge.now.operator charge.now.provider charge.now.currency)
        (exposure_of (of_pair charge.now.operator charge.now.provider charge.now.currency)
        (account_entries events.now ++ account.Charge charge.now ∷ [])) }
{
    match config.pair_limit(&charge.operator, &charge.provider, &charge.currency) {
        Some(limit) => {
            let most = limit.get();
            let _cost = charge.cost.get();
            let scope = Scope::of_pair(charge.operator, charge.provider, charge.currency);
            above_with(most, events, &scope, charge, true)
        }
        None => None,
    }
}

// With the charge added, an exposure would be above its limit.
fn over_limit(config: &Config, events: &[Event], charge: &Charge) -> Option<Refusal>
    requires { KeepsLimits config.now (account_entries events.now) }
    ensures { result ≡ over_limit config.now charge.now (account_entries events.now) }
{
    let limit = config.limit(&charge.provider, &charge.currency).get();
    let _cost = charge.cost.get();
    let scope = Scope::of_provider(charge.provider, charge.currency);
    let refusal = above_with(limit, events, &scope, charge, false);
    if refusal.is_some() {
        return refusal;
    }
    over_pair_limit(config, events, charge)
}

// Books a CDR that its operator's book takes.
fn book_cdr(
    config: &Config,
    events: &mut Vec<Event>,
    cdr: Shared<Cdr>,
    cost: Cost,
) -> Result<Replied, Refused>
    requires { KeepsLimits config.now (account_entries events.old.items) }
    ensures { Follows (unless (full_for_cdr config.now (known events.old.items) cdr
        ∷ refused_for (over_limit config.now (charge_of cdr cost (period_of events.old.items)) (account_entries events.old.items)) ∷ [])
        (accepts (Accepted (pos cost) (period_of events.old.items)) (CdrEvent cdr cost))) events.old.items result events.new.items }
{
    let at = events.len();
    if let Some(what) = full_for_cdr(config, events.as_slice(), &cdr) {
        return Err(refused(at, Refusal::Full { what }));
    }
    let period = period_of(events.as_slice());
    let charge = charge_of(&cdr, cost, period);
    if let Some(refusal) = over_limit(config, events.as_slice(), &charge) {
        return Err(refused(at, refusal));
    }
    let amount = BookedAmount::of_cost(cost).amount();
    add(
        events,
        Event::Cdr { cdr, cost },
        Answer::Accepted { amount, period },
    )
}

fn post_cdr(
    config: &Config,
    events: &mut Vec<Event>,
    cdr: Shared<Cdr>,
    cost: Cost,
) -> Result<Replied, Refused>
    requires { KeepsLimits config.now (account_entries events.old.items) }
    ensures { Follows (cdr_posted config.now (known events.old.items) cdr cost) events.old.items result events.new.items }
{
    let at = events.len();
    if let Some(found) = booked_as(events.as_slice(), &cdr.operator, &cdr.id) {
        return stamped(at as u64, reply_to_booked(&found, &cdr));
    }
    if lacks_registered(events.as_slice(), &cdr) {
        return Err(refused(at, Refusal::TariffNotRegistered));
    }
    book_cdr(config, events, cdr, cost)
}

// Books a Credit CDR that its operator's book takes.
fn book_credit(
    config: &Config,
    events: &mut Vec<Event>,
    credit: Shared<Cdr>,
    booked: BookedAmount,
) -> Result<Replied, Refused>
    ensures { Follows (credit_taken config.now (known events.old.items) credit (Ok booked)) events.old.items result events.new.items }
{
    let at = events.len();
    if let Some(what) = full_for_cdr(config, events.as_slice(), &credit) {
        return Err(refused(at, Refusal::Full { what }));
    }
    let period = period_of(events.as_slice());
    let amount = booked.amount();
    add(
        events,
        Event::Credit {
            cdr: credit,
            amount: booked,
        },
        Answer::Accepted { amount, period },
    )
}

// A Credit CDR whose id is not booked.
fn take_credit(
    config: &Config,
    events: &mut Vec<Event>,
    credit: Shared<Cdr>,
) -> Result<Replied, Refused>
    ensures { Follows (credit_taken config.now (known events.old.items) credit (credited_amount config.now (period_of events.old.items) credit (book_entries events.old.items))) events.old.items result events.new.items }
{
    let at = events.len();
    let period = period_of(events.as_slice());
    match credited_amount(config, events.as_slice(), period, &credit) {
        Ok(amount) => book_credit(config, events, credit, amount),
        Err(refusal) => Err(refused(at, refusal)),
    }
}

fn post_credit(
    config: &Config,
    events: &mut Vec<Event>,
    credit: Shared<Cdr>,
) -> Result<Replied, Refused>
    ensures { Follows (credit_posted config.now (known events.old.items) credit) events.old.items result events.new.items }
{
    let at = events.len() as u64;
    if let Some(found) = booked_as(events.as_slice(), &credit.operator, &credit.id) {
        return stamped(at, reply_to_booked(&found, &credit));
    }
    take_credit(config, events, credit)
}

pub fn post(config: &Config, events: &mut Vec<Event>, checked: Checked) -> Result<Replied, Refused>
    requires { KeepsLimits config.now (account_entries events.old.items) }
    ensures { Does config.now events.old.items (Post checked) result events.new.items }
{
    let cost = checked.cost();
    let cdr = checked.into_cdr();
    match cost {
        Some(cost) => post_cdr(config, events, cdr, cost),
        None => post_credit(config, events, cdr),
    }
}
