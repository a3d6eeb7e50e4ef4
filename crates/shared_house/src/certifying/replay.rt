//! The calls done once more, in the order of their points, on a house of their own.

ghost use Rattle.std.specs.Prelude.{All, ◌≡◌, ◌≤◌, ◌-◌, ◌↔◌, true, List, [], length, map, slice_get, take, IfOk, IfNone, IfSome, Some};
ghost use Rattle.cdr_checks.specs.Admission.{IsAdmitted};
ghost use Rattle.plain_house.specs.declared.event.Event.{Event};
ghost use Rattle.plain_house.specs.House.{events_after};
ghost use Rattle.shared_house.specs.Points.{point_of_reply};
ghost use Rattle.shared_house.specs.declared.call.Call.{Call};
ghost use Rattle.shared_house.specs.History.{BreaksFirst, IsOneHistory, Stands, events_before};
ghost use Rattle.shared_house.specs.Inner.Turns.{AreTurns, IsNext, Tears, plain_turn};

use super::stretches::is_found_in_stretches;
use super::turn::Turn;
use crate::call::Call;
use ocpi_json::same::Same;
use ocpi_types::{Config, TryCopy};
use operator_book::Book;
use period_order::BookHouse;
use plain_house::{
    Event, Sequential, adds_event, commands_keep_lists_legal, empty_lists_are_legal,
    is_out_of_memory, replies_tell_events,
};
use provider_account::Account;
use std::alloc::{AllocError, Global};
use std::thread::Threads;

// The event of this number is the last one of the house.
fn is_last_at(house: &BookHouse, events: &[Event], number: u64) -> bool
    ensures { (last : Event) → slice_get house.now.events (length house.now.events - 1) ≡ Some last →
        (result ≡ true) ↔ (slice_get events.now number ≡ Some last) }
{
    match events.get(number as usize) {
        Some(event) => house.is_last(event),
        None => false,
    }
}

// Does the command of a call on a house of the events before it, and tells whether the call stands there.
fn stands(
    alloc: Global,
    house: &mut BookHouse,
    events: &[Event],
    call: &Call,
) -> Result<bool, AllocError>
    requires admitted { IsAdmitted house.old.config call.now.command }
    requires before { house.old.events ≡ events_before events.now call.now }
    requires within { point_of_reply call.now.reply ≤ length events.now }
    ensures config { house.new.config ≡ house.old.config }
    ensures stands { IfOk result (λ stands. (stands ≡ true) ↔ Stands house.old.config events.now call.now) }
    ensures events { IfOk result (λ stands. house.new.events ≡ events_after house.old.config house.old.events call.now.command) }
{
    replies_tell_events();
    let command = call.command.copy(alloc)?;
    let reply = house.do_command(command);
    if is_out_of_memory(&reply) {
        return Err(AllocError);
    }
    if !reply.is_same(&call.reply) {
        return Ok(false);
    }
    if !adds_event(&reply) {
        return Ok(true);
    }
    Ok(is_last_at(house, events, call.point()))
}

// Does the next turn, when so many events are those of the turns before it, and tells where it breaks.
fn take_turn(
    alloc: Global,
    house: &mut BookHouse,
    events: &[Event],
    turn: &Turn,
    count: u64,
) -> Result<Option<u64>, AllocError>
    requires admitted { IsAdmitted house.old.config turn.now.call.now.command }
    requires so_far { house.old.events ≡ take count events.now }
    requires within { count ≤ length events.now }
    ensures config { house.new.config ≡ house.old.config }
    ensures next { IfOk result (λ torn. IfNone torn (IsNext house.old.config events.now count (plain_turn turn.now) house.new.events)) }
    ensures torn { IfOk result (λ torn. IfSome torn (Tears house.old.config events.now count (plain_turn turn.now))) }
{
    let point = turn.call.point();
    if count < point && count < events.len() as u64 {
        return Ok(Some(count));
    }
    if point != count || u128::from(point) < turn.front {
        return Ok(Some(point));
    }
    if stands(alloc, house, events, turn.call)? {
        Ok(None)
    } else {
        Ok(Some(point))
    }
}

// The same as below, by an empty house of the configuration, on which the calls are done.
fn first_break_by(
    alloc: Global,
    house: &mut BookHouse,
    events: &[Event],
    turns: &[Turn],
) -> Result<Option<u64>, AllocError>
    requires empty { house.old.events ≡ [] }
    requires admitted { All (λ turn. IsAdmitted house.old.config turn.call.now.command) turns.now }
    ensures history { IfOk result (λ torn. IfNone torn ((passes : List (List Call)) → AreTurns passes (map plain_turn turns.now) →
        IsOneHistory house.old.config events.now passes)) }
    ensures torn { IfOk result (λ torn. IfSome torn (λ number. (passes : List (List Call)) → AreTurns passes (map plain_turn turns.now) →
        BreaksFirst house.old.config events.now passes number)) }
{
    commands_keep_lists_legal();
    empty_lists_are_legal();
    replies_tell_events();
    let mut count = 0;
    for turn in turns {
        if let Some(number) = take_turn(alloc, house, events, turn, count)? {
            return Ok(Some(number));
        }
        if adds_event(&turn.call.reply) {
            count += 1;
        }
    }
    if count < events.len() as u64 {
        return Ok(Some(count));
    }
    Ok(None)
}

/// The first number at which the events and the calls of passes break, which these turns are, or none where they are one history.
/// Books and accounts tell how much room entry books need.
pub fn first_break<R: Threads + Sync>(
    rt: &R,
    alloc: Global,
    config: &Config,
    books: &[Book],
    accounts: &[Account],
    events: &[Event],
    turns: &[Turn],
) -> Result<Option<u64>, AllocError>
    requires { All (λ turn. IsAdmitted config.now turn.call.now.command) turns.now }
    ensures history { IfOk result (λ torn. IfNone torn ((passes : List (List Call)) → AreTurns passes (map plain_turn turns.now) →
        IsOneHistory config.now events.now passes)) }
    ensures torn { IfOk result (λ torn. IfSome torn (λ number. (passes : List (List Call)) → AreTurns passes (map plain_turn turns.now) →
        BreaksFirst config.now events.now passes number)) }
{
    if is_found_in_stretches(rt, alloc, config, books, accounts, events, turns)? {
        return Ok(None);
    }
    let mut house = BookHouse::new(alloc, config.copy(alloc)?)?;
    first_break_by(alloc, &mut house, events, turns)
}
