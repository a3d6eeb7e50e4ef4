//! Authorising a token.

ghost use Rattle.std.specs.Prelude.{◌≡◌, ◌≤◌, ◌+◌, ◌^◌, [], ◌∷◌, count_by, length};
ghost use Rattle.ocpi_types.specs.Config.{pair_limit_of};
ghost use Rattle.cdr_checks.specs.declared.request.Command.TheVariants.{Authorize as AuthorizeCommand};
ghost use Rattle.plain_house.specs.Entries.{account_entries};
ghost use Rattle.plain_house.specs.Exposure.{exposure_of, of_pair};
ghost use Rattle.plain_house.specs.Known.{known};
ghost use Rattle.plain_house.specs.House.{Does, allows, hold_for, is_hold_of, next_reference, full_for, over_credit, unless_covered};
ghost use Rattle.plain_house.specs.OverLimit.{over_if_any};
ghost use Rattle.plain_house.specs.Inner.Scanned.{event_is_hold_of};
ghost use Rattle.plain_house.specs.LegalLists.{KeepsLimits};
ghost use Rattle.plain_house.specs.Replies.{Follows};
ghost use Rattle.plain_house.specs.Verdict.{unless};

use super::full::full_for_provider;
use super::replies::{add, refused, replied};
use crate::answer::{Answer, Refused, Replied};
use crate::debts::exposure_of;
use crate::event::{Event, Hold};
use crate::hold_reference::reference;
use crate::over_limit::{OverLimit, over};
use crate::scope::Scope;
use crate::tokens::validity;
use cdr_checks::Authorize;
use ocpi_json::ci_text::CiText;
use ocpi_types::{Config, Party, Refusal};

fn is_hold_of(event: &Event, provider: &Party) -> bool
    ensures { result ≡ event_is_hold_of provider.now event.now }
{
    match event {
        Event::Authorised(hold) => hold.provider.is(provider),
        _ => false,
    }
}

fn holds_in(events: &[Event], provider: &Party) -> u64
    ensures value { result ≡ count_by (event_is_hold_of provider.now) events.now }
    ensures bound { result ≤ length events.now }
{
    let found = events.iter().filter(|event| is_hold_of(event, provider));
    found.count() as u64
}

fn holds_so_far(events: &[Event], provider: &Party) -> u64
    ensures value { result ≡ count_by (is_hold_of provider.now) (account_entries events.now) }
    ensures bound { result ≤ length events.now }
{
    holds_in(events, provider)
}

// The reference of the provider's next authorisation.
fn next_reference(config: &Config, events: &[Event], provider: &Party) -> CiText<36>
    ensures { result ≡ next_reference config.now provider.now (account_entries events.now) }
{
    let number = holds_so_far(events, provider) + 1;
    match config.provider(provider) {
        Some(configured) => reference(&configured.party, number),
        None => reference(provider, number),
    }
}

// With the hold, the exposure would be above the provider's limit, or its limit with the operator.
fn over_credit(config: &Config, events: &[Event], ask: &Authorize) -> Option<OverLimit>
    requires { KeepsLimits config.now (account_entries events.now) }
    ensures { result ≡ over_credit config.now ask.now (account_entries events.now) }
{
    let hold = config.hold(&ask.provider, &ask.currency).get();
    let limit = config.limit(&ask.provider, &ask.currency).get();
    let scope = Scope::of_provider(ask.provider, ask.currency);
    let exposure = exposure_of(events, &scope, None);
    let found = over(limit, exposure + hold, false);
    if found.is_some() {
        return found;
    }
    over_pair_credit(config, events, ask, hold)
}

fn over_pair_credit(
    config: &Config,
    events: &[Event],
    ask: &Authorize,
    hold: u64,
) -> Option<OverLimit>
    requires limits { KeepsLimits config.now (account_entries events.now) }
    requires hold { hold ≤ 10 ^ 12 }
    ensures { result ≡ over_if_any (pair_limit_of config.now ask.now.operator ask.now.provider ask.now.currency)
        (exposure_of (of_pair ask.now.operator ask.now.provider ask.now.currency) (account_entries events.now) + hold) }
{
    match config.pair_limit(&ask.operator, &ask.provider, &ask.currency) {
        Some(limit) => {
            let most = limit.get();
            let scope = Scope::of_pair(ask.operator, ask.provider, ask.currency);
            let exposure = exposure_of(events, &scope, None);
            over(most, exposure + hold, true)
        }
        None => None,
    }
}

fn hold_for(config: &Config, events: &[Event], ask: &Authorize) -> Hold
    ensures { result ≡ hold_for config.now ask.now (account_entries events.now) }
{
    Hold {
        operator: ask.operator,
        provider: ask.provider,
        currency: ask.currency,
        amount: config.hold(&ask.provider, &ask.currency),
        reference: next_reference(config, events, &ask.provider),
    }
}

// Authorises a valid token.
fn grant(config: &Config, events: &mut Vec<Event>, ask: &Authorize) -> Result<Replied, Refused>
    requires { KeepsLimits config.now (account_entries events.old.items) }
    ensures { Follows (unless (full_for config.now (known events.old.items) ask.now.provider
        ∷ unless_covered (over_credit config.now ask.now (account_entries events.old.items)) ∷ [])
        (allows (hold_for config.now ask.now (account_entries events.old.items)))) events.old.items result events.new.items }
{
    let at = events.len();
    if let Some(what) = full_for_provider(config, events.as_slice(), &ask.provider) {
        return Err(refused(at, Refusal::Full { what }));
    }
    if let Some(over) = over_credit(config, events.as_slice(), ask) {
        return Ok(replied(at, Answer::NoCredit(over)));
    }
    let hold = hold_for(config, events.as_slice(), ask);
    let reference = hold.reference;
    add(
        events,
        Event::Authorised(hold),
        Answer::Allowed { reference },
    )
}

pub fn authorize(
    config: &Config,
    events: &mut Vec<Event>,
    ask: Authorize,
) -> Result<Replied, Refused>
    requires { KeepsLimits config.now (account_entries events.old.items) }
    ensures { Does config.now events.old.items (AuthorizeCommand ask) result events.new.items }
{
    let at = events.len();
    match validity(events.as_slice(), &ask.provider, &ask.uid, ask.kind) {
        Some(true) => grant(config, events, &ask),
        Some(false) => Ok(replied(at, Answer::Blocked)),
        None => Err(refused(at, Refusal::UnknownToken)),
    }
}
