//! A hold, added again by an authorisation of a token that is valid.

ghost use Rattle.std.specs.Prelude.{◌≡◌, ◌↔◌, ◌-◌, true, false, length, slice_get, Some, IfOk};
ghost use Rattle.cdr_checks.specs.Admission.{IsAdmitted};
ghost use Rattle.plain_house.specs.declared.event.Event.TheVariants as event;
ghost use Rattle.plain_house.specs.Known.{known};
ghost use Rattle.plain_house.specs.Laws.{adds_event};
ghost use Rattle.event_commands.specs.AskedAgain.{IsHeldAgain};
ghost use Rattle.new_configuration.specs.Inner.Added.{IsAdded};
ghost use Rattle.new_configuration.specs.Inner.Attempt.{EndsIn, TokenEndsIn, is_blocked, rejects_token};
ghost use Rattle.new_configuration.specs.Inner.ValidTokens.{HaveValid, HaveValidOf};

use super::valid_tokens::ValidTokens;
use cdr_checks::Command;
use event_commands::{Platforms, hold_ask};
use ocpi_types::{Refusal, Token};
use period_order::BookHouse;
use plain_house::{
    Answer, Event, Hold, Refused, Replied, Sequential, adds_event, is_out_of_memory,
    replies_tell_events,
};
use std::alloc::{AllocError, Global};

/// What an authorisation that asks for a hold results in.
#[derive(Clone, Copy, PartialEq, Eq)]
pub enum Attempt {
    /// The hold is added.
    Added,
    /// Another event is added, or none.
    Otherwise,
    /// The token is unknown or not valid.
    InvalidToken,
}

fn is_blocked(answer: &Answer) -> bool
    ensures { result ≡ is_blocked answer.now }
{
    matches!(answer, Answer::Blocked)
}

// Returns whether the token is unknown or not valid, by the reply.
fn rejects_token(reply: &Result<Replied, Refused>) -> bool
    ensures { result ≡ rejects_token reply.now }
{
    match reply {
        Ok(replied) => is_blocked(&replied.answer),
        Err(refused) => matches!(refused.refusal, Refusal::UnknownToken),
    }
}

// Returns whether an event is added, by the reply, and it is this one.
fn is_added(house: &BookHouse, reply: &Result<Replied, Refused>, event: &Event) -> bool
    ensures { (result ≡ true) ↔ ((adds_event reply.now ≡ true) × (slice_get house.now.events (length house.now.events - 1) ≡ Some event.now)) }
{
    adds_event(reply) && house.is_last(event)
}

// Does the command to add this event.
fn try_command(
    house: &mut BookHouse,
    command: Command,
    event: &Event,
) -> Result<Attempt, AllocError>
    requires { IsAdmitted house.old.config command }
    ensures config { house.new.config ≡ house.old.config }
    ensures ends { IfOk result (λ attempt. EndsIn house.old.config house.old.events command event.now house.new.events attempt) }
{
    replies_tell_events();
    let reply = house.do_command(command);
    if is_out_of_memory(&reply) {
        return Err(AllocError);
    }
    if rejects_token(&reply) {
        return Ok(Attempt::InvalidToken);
    }
    if is_added(house, &reply, event) {
        return Ok(Attempt::Added);
    }
    Ok(Attempt::Otherwise)
}

// Authorises the token to add the hold.
fn try_token(
    platforms: &Platforms,
    house: &mut BookHouse,
    token: &Token,
    hold: &Hold,
) -> Result<Attempt, AllocError>
    requires { house.old.config ≡ platforms.now }
    ensures config { house.new.config ≡ platforms.now }
    ensures ends { IfOk result (λ attempt. TokenEndsIn platforms.now house.old.events hold.now token.now.uid token.now.kind house.new.events attempt) }
{
    match platforms.admitted_for(hold_ask(hold, token.uid, token.kind)) {
        Some(command) => {
            let attempt = try_command(house, command, &Event::Authorised(*hold))?;
            Ok(attempt)
        }
        None => Ok(Attempt::Otherwise),
    }
}

// Authorises the last of these tokens that is valid, drops those after it, and returns whether the hold is added.
fn adds_by_one_of(
    platforms: &Platforms,
    house: &mut BookHouse,
    tokens: &mut Vec<Token>,
    hold: &Hold,
) -> Result<bool, AllocError>
    requires config { house.old.config ≡ platforms.now }
    requires tokens { HaveValidOf house.old.events hold.now.provider tokens.old.items }
    ensures config { house.new.config ≡ platforms.now }
    ensures added { IfOk result (λ added. added ≡ true → IsAdded platforms.now house.old.events (event.Authorised hold.now) house.new.events) }
    ensures tokens { IfOk result (λ added. added ≡ true → HaveValidOf house.old.events hold.now.provider tokens.new.items) }
    ensures otherwise { IfOk result (λ added. added ≡ false → IsHeldAgain platforms.now (known house.old.events) hold.now → ⊥) }
{
    while let Some(token) = tokens.pop() {
        match try_token(platforms, house, &token, hold)? {
            Attempt::Added => {
                tokens.push(token)?;
                return Ok(true);
            }
            Attempt::Otherwise => return Ok(false),
            Attempt::InvalidToken => {}
        }
    }
    Ok(false)
}

/// Authorises a valid token of the hold's provider, and returns whether that adds the hold.
///
/// # Errors
///
/// `AllocError` if an allocation fails.
pub fn adds_hold(
    alloc: Global,
    platforms: &Platforms,
    house: &mut BookHouse,
    valid: &mut ValidTokens,
    hold: &Hold,
) -> Result<bool, AllocError>
    requires config { house.old.config ≡ platforms.now }
    requires tokens { HaveValid house.old.events valid.old }
    ensures config { house.new.config ≡ platforms.now }
    ensures added { IfOk result (λ added. added ≡ true → IsAdded platforms.now house.old.events (event.Authorised hold.now) house.new.events) }
    ensures tokens { IfOk result (λ added. added ≡ true → HaveValid house.old.events valid.new) }
    ensures otherwise { IfOk result (λ added. added ≡ false → IsHeldAgain platforms.now (known house.old.events) hold.now → ⊥) }
{
    let mut tokens = valid.take(alloc, &hold.provider);
    let added = adds_by_one_of(platforms, house, &mut tokens, hold)?;
    valid.put(hold.provider, tokens)?;
    Ok(added)
}
