//! Stretches of a history, each checked by entry books of its own.

ghost use Rattle.std.specs.Prelude.{All, ◌≡◌, ◌≤◌, ◌++◌, [], true, List, length, map, take, IfOk, IfSome};
ghost use denote.Param.Send.{IsSync};
ghost use Rattle.cdr_checks.specs.Admission.{IsAdmitted};
ghost use Rattle.plain_house.specs.declared.event.Event.{Event};
ghost use Rattle.plain_house.specs.House.{events_after};
ghost use Rattle.plain_house.specs.Legal.{IsLegal};
ghost use Rattle.period_order.specs.EntryBooks.{Keep};
ghost use Rattle.shared_house.specs.Points.{point_of_reply};
ghost use Rattle.shared_house.specs.History.{Stands, events_before};
ghost use Rattle.shared_house.specs.Inner.Stretches.{Agrees, AreFitByTables, IsFitByTables, IsStretchFit};
ghost use Rattle.shared_house.specs.Inner.Tables.{HasRightTable};
ghost use Rattle.shared_house.specs.Inner.Turns.{AreFit, IsNext, plain_turn};

use super::tables::are_tables_right;
use super::turn::Turn;
use crate::call::Call;
use ocpi_json::same::Same;
use ocpi_types::{Config, TryCopy};
use operator_book::Book;
use period_order::{Decided, EntryBooks, Outcome};
use plain_house::{
    Answer, Event, Refused, Replied, adds_event, closed_periods_stay, commands_keep_lists_legal,
    empty_lists_are_legal, events_are_of_configured, legal_lists_begin_legally,
    replies_tell_events, stamped,
};
use provider_account::Account;
use std::alloc::{AllocError, Global};
use std::thread;
use std::thread::{Threads, available_parallelism};

/// Turns from one number to another, and the events that are to be theirs.
#[derive(Clone, Copy)]
pub struct Stretch {
    pub start: usize,
    pub end: usize,
    pub from: u64,
    pub until: u64,
}

// Puts events behind those that the entry books keep. False where one cannot be put.
fn put_all(entry_books: &mut EntryBooks, events: &[Event]) -> Result<bool, AllocError>
    ensures config { entry_books.new.config ≡ entry_books.old.config }
    ensures put { IfOk result (λ are_put. are_put ≡ true → (before : List Event) → Keep entry_books.old before →
        IsLegal entry_books.old.config (before ++ events.now) → Keep entry_books.new (before ++ events.now)) }
{
    legal_lists_begin_legally();
    for event in events {
        if !entry_books.put(event)? {
            return Ok(false);
        }
    }
    Ok(true)
}

// The reply is what the command came to, but for what is collected.
fn agrees(decided: Decided, reply: &Result<Replied, Refused>) -> bool
    ensures { result ≡ true → Agrees decided reply.now }
{
    match (decided.outcome, reply) {
        (Outcome::Replied { reply: answer, .. }, _) => stamped(decided.point, answer).is_same(
            reply,
        ),
        (
            Outcome::Closed { period },
            Ok(
                Replied {
                    at,
                    answer: Answer::Closed { period: told, .. },
                },
            ),
        ) => *at == decided.point && *told == period,
        (
            Outcome::Stated { .. },
            Ok(
                Replied {
                    at,
                    answer: Answer::Statement { .. },
                },
            ),
        ) => *at == decided.point,
        (Outcome::Closed { .. } | Outcome::Stated { .. }, _) => false,
    }
}

// Does the command of a call on entry books that keep the events before it, and tells whether the call stands there if what it was told
// of net positions or rows is right.
fn stands(
    alloc: Global,
    entry_books: &mut EntryBooks,
    events: &[Event],
    call: &Call,
) -> Result<bool, AllocError>
    requires admitted { IsAdmitted entry_books.old.config call.now.command }
    requires within { point_of_reply call.now.reply ≤ length events.now }
    ensures config { entry_books.new.config ≡ entry_books.old.config }
    ensures stands { IfOk result (λ stands. stands ≡ true → HasRightTable entry_books.old.config events.now call.now →
        Keep entry_books.old (events_before events.now call.now) → Stands entry_books.old.config events.now call.now) }
    ensures kept { IfOk result (λ _. Keep entry_books.old (events_before events.now call.now) →
        Keep entry_books.new (events_after entry_books.old.config (events_before events.now call.now) call.now.command)) }
{
    closed_periods_stay();
    events_are_of_configured();
    replies_tell_events();
    let command = call.command.copy(alloc)?;
    let decided = entry_books.decide(command)?;
    if !agrees(decided, &call.reply) {
        return Ok(false);
    }
    if !adds_event(&call.reply) {
        return Ok(true);
    }
    match events.get(call.point() as usize) {
        Some(event) => Ok(entry_books.is_last(event)),
        None => Ok(false),
    }
}

// Does the command of the next turn, where so many events are those of the turns before it, and tells whether it is fit.
fn takes_turn(
    alloc: Global,
    entry_books: &mut EntryBooks,
    events: &[Event],
    turn: &Turn,
    count: u64,
) -> Result<bool, AllocError>
    requires admitted { IsAdmitted entry_books.old.config turn.now.call.now.command }
    ensures config { entry_books.new.config ≡ entry_books.old.config }
    ensures within { IfOk result (λ takes. takes ≡ true → count ≤ length events.now) }
    ensures next { IfOk result (λ takes. takes ≡ true → HasRightTable entry_books.old.config events.now turn.now.call.now → Keep entry_books.old (take count events.now) →
        IsNext entry_books.old.config events.now count (plain_turn turn.now) (events_after entry_books.old.config (take count events.now) turn.now.call.now.command)) }
    ensures kept { IfOk result (λ takes. takes ≡ true → Keep entry_books.old (take count events.now) →
        Keep entry_books.new (events_after entry_books.old.config (take count events.now) turn.now.call.now.command)) }
{
    let point = turn.call.point();
    if point != count || u128::from(point) < turn.front || events.len() < point as usize {
        return Ok(false);
    }
    stands(alloc, entry_books, events, turn.call)
}

// The turns of a stretch are fit on entry books that keep the events before it.
fn are_fit(
    alloc: Global,
    entry_books: &mut EntryBooks,
    events: &[Event],
    turns: &[Turn],
    stretch: Stretch,
) -> Result<bool, AllocError>
    requires admitted { All (λ turn. IsAdmitted entry_books.old.config turn.call.now.command) turns.now }
    requires within { (stretch.start ≤ stretch.end) × (stretch.end ≤ length turns.now) }
    requires kept { IsLegal entry_books.old.config (take stretch.from events.now) → Keep entry_books.old (take stretch.from events.now) }
    ensures { IfOk result (λ are. are ≡ true → IsFitByTables entry_books.old.config events.now turns.now stretch) }
{
    commands_keep_lists_legal();
    replies_tell_events();
    let mut count = stretch.from;
    for number in stretch.start..stretch.end {
        let turn = &turns[number];
        if !takes_turn(alloc, entry_books, events, turn, count)? {
            return Ok(false);
        }
        if adds_event(&turn.call.reply) {
            count += 1;
        }
    }
    Ok(count == stretch.until)
}

// The same on entry books that keep no event yet. False too where the events before the stretch cannot be put.
fn are_fit_behind(
    alloc: Global,
    entry_books: &mut EntryBooks,
    events: &[Event],
    turns: &[Turn],
    stretch: Stretch,
) -> Result<bool, AllocError>
    requires admitted { All (λ turn. IsAdmitted entry_books.old.config turn.call.now.command) turns.now }
    requires within { (stretch.start ≤ stretch.end) × (stretch.end ≤ length turns.now) }
    requires begins { stretch.from ≤ length events.now }
    requires empty { Keep entry_books.old [] }
    ensures { IfOk result (λ are. are ≡ true → IsFitByTables entry_books.old.config events.now turns.now stretch) }
{
    Ok(
        put_all(entry_books, &events[..stretch.from as usize])?
            && are_fit(alloc, entry_books, events, turns, stretch)?,
    )
}

// The stretch, where its turns are fit if what calls were told of net positions and rows is right. None too where it is none of the
// turns, or the events before it cannot be put. Its entry books have room for as many entries as the books and accounts have.
fn fit_stretch(
    alloc: Global,
    config: &Config,
    books: &[Book],
    accounts: &[Account],
    events: &[Event],
    turns: &[Turn],
    stretch: Stretch,
) -> Result<Option<Stretch>, AllocError>
    requires { All (λ turn. IsAdmitted config.now turn.call.now.command) turns.now }
    ensures { IfOk result (λ found. IfSome found (IsFitByTables config.now events.now turns.now)) }
{
    if stretch.end < stretch.start
        || turns.len() < stretch.end
        || (events.len() as u64) < stretch.from
    {
        return Ok(None);
    }
    let mut entry_books = EntryBooks::with_room(alloc, config.copy(alloc)?, books, accounts)?;
    if are_fit_behind(alloc, &mut entry_books, events, turns, stretch)? {
        Ok(Some(stretch))
    } else {
        Ok(None)
    }
}

// Whether all stretches are fit, and each begins where the one before it ends, from the first turn to the last.
fn are_joined(
    config: &Config,
    events: &[Event],
    turns: &[Turn],
    found: &[Result<Option<Stretch>, AllocError>],
) -> Result<bool, AllocError>
    requires { All (λ stretch. IfOk stretch (λ stretch. IfSome stretch (IsStretchFit config.now events.now (map plain_turn turns.now)))) found.now }
    ensures { IfOk result (λ are. are ≡ true → AreFit config.now events.now (map plain_turn turns.now) (length events.now)) }
{
    empty_lists_are_legal();
    let _ = config;
    let mut start = 0;
    let mut from = 0;
    for found in found {
        match found {
            Ok(Some(stretch)) if stretch.start == start && stretch.from == from => {
                start = stretch.end;
                from = stretch.until;
            }
            Ok(_) => return Ok(false),
            Err(AllocError) => return Err(AllocError),
        }
    }
    Ok(start == turns.len() && from == events.len() as u64)
}

// Thousandths of the turns that are left, which the next stretch takes: by how many come behind it. All stretches would take as
// long if an event were put in two fifths of the time of a call; it takes some two thirds, so the last stretch ends last.
const SHARES: [usize; 8] = [1000, 625, 510, 460, 434, 420, 411, 407];

// How many of so many turns the next stretch takes, where so many come behind it.
fn share(turns: usize, behind: usize) -> usize
    ensures { result ≤ turns }
{
    match SHARES.get(behind) {
        Some(share) => ((turns as u128 * *share as u128 / 1000) as usize).min(turns),
        None => 0,
    }
}

fn stretches_of(
    alloc: Global,
    events: &[Event],
    turns: &[Turn],
    count: usize,
) -> Result<Vec<Stretch>, AllocError> {
    let mut stretches = Vec::new(alloc);
    let mut start = 0;
    let mut from = 0;
    for behind in (0..count).rev() {
        let end = start + share(turns.len() - start, behind);
        let until = match turns.get(end) {
            Some(turn) => turn.call.point(),
            None => events.len() as u64,
        };
        stretches.push(Stretch {
            start,
            end,
            from,
            until,
        })?;
        start = end;
        from = until;
    }
    Ok(stretches)
}

fn processors(rt: &impl Threads) -> usize {
    match available_parallelism(rt) {
        Ok(count) => count.get().min(SHARES.len()),
        Err(_) => 1,
    }
}

// The stretches that are fit if what calls were told of net positions and rows is right, each found in a thread of its own where one
// can be made.
fn fit_stretches<R: Threads + Sync>(
    rt: &R,
    alloc: Global,
    config: &Config,
    books: &[Book],
    accounts: &[Account],
    events: &[Event],
    turns: &[Turn],
) -> Result<Vec<Result<Option<Stretch>, AllocError>>, AllocError>
    requires { All (λ turn. IsAdmitted config.now turn.call.now.command) turns.now }
    ensures { IfOk result (λ found. AreFitByTables config.now events.now turns.now found.items) }
{
    let stretches = stretches_of(alloc, events, turns, processors(rt))?;
    thread::map_indices(
        rt,
        alloc,
        stretches.len(),
        &|number| {
            fit_stretch(
                alloc,
                config,
                books,
                accounts,
                events,
                turns,
                stretches[number],
            )
        },
    )
}

/// Whether all turns are found to be fit, in stretches at once. False too where they are not, and where it takes a check of all
/// calls in turn to find out.
pub fn is_found_in_stretches<R: Threads + Sync>(
    rt: &R,
    alloc: Global,
    config: &Config,
    books: &[Book],
    accounts: &[Account],
    events: &[Event],
    turns: &[Turn],
) -> Result<bool, AllocError>
    requires { All (λ turn. IsAdmitted config.now turn.call.now.command) turns.now }
    ensures { IfOk result (λ is. is ≡ true → AreFit config.now events.now (map plain_turn turns.now) (length events.now)) }
{
    let tables = || -> Result<bool, AllocError>
        ensures { IfOk result (λ are. are ≡ true → All (λ turn. HasRightTable config.entry.now events.entry.now turn.call.now) turns.entry.now) }
    { are_tables_right(alloc, config, events, turns) };
    let stretches = || -> Result<Vec<Result<Option<Stretch>, AllocError>>, AllocError>
        requires { IsSync R.row × All (λ turn. IsAdmitted config.now turn.call.now.command) turns.now }
        ensures { IfOk result (λ found. AreFitByTables config.entry.now events.entry.now turns.entry.now found.items) }
    { fit_stretches(rt, alloc, config, books, accounts, events, turns) };
    let (are_right, found) = thread::join(rt, tables, stretches);
    let found = found?;
    if !are_right? {
        return Ok(false);
    }
    are_joined(config, events, turns, found.as_slice())
}
