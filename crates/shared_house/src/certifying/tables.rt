//! The net positions and the rows of statements that calls were told, compared with what their periods oblige to.

ghost use Rattle.std.specs.Prelude.{All, List, ◌≡◌, true, map, IfOk};
ghost use Rattle.netting_positions.specs.Netting.{is_configured, parties};
ghost use Rattle.netting_positions.specs.Statement.{statement_rows};
ghost use Rattle.plain_house.specs.declared.event.Event.{Event};
ghost use Rattle.plain_house.specs.Entries.{book_entries};
ghost use Rattle.plain_house.specs.House.{positions_in};
ghost use Rattle.plain_house.specs.Obligations.{obligations};
ghost use Rattle.shared_house.specs.Inner.Tables.{AreOwed, CanBeNetted, HasRightTable};

use super::turn::Turn;
use crate::call::Call;
use cdr_checks::{Command, StatementOf};
use netting_positions::{
    NetPosition, Obligation, Positions, StatementRow, add_each, parties_are_configured, rows_of,
};
use ocpi_json::same::Same;
use ocpi_json::sequence::Sequence;
use ocpi_types::Config;
use plain_house::{Answer, Event, Replied, obligations_in, period_of, split_first_period};
use std::alloc::{AllocError, Global};

// What each period obliges to, the last one too, which is not closed.
fn owed_by_period(alloc: Global, events: &[Event]) -> Result<Vec<Vec<Obligation>>, AllocError>
    ensures { IfOk result (λ owed. AreOwed (map (λ list. list.items) owed.items) events.now) }
{
    let mut owed = Vec::new(alloc);
    let mut rest = events;
    for _period in 0..period_of(events) + 1 {
        let (first, later) = split_first_period(rest);
        owed.push(obligations_in(alloc, first, 0)?)?;
        rest = later;
    }
    Ok(owed)
}

fn is_configured(config: &Config, obligation: &Obligation) -> bool
    ensures { result ≡ is_configured (parties config.now) config.now.currencies obligation.now }
{
    parties_are_configured();
    config.is_party(&obligation.operator)
        && config.is_party(&obligation.provider)
        && config.has_currency(&obligation.currency)
}

fn can_be_netted(config: &Config, owed: &[Obligation]) -> bool
    ensures { result ≡ true → CanBeNetted config.now owed.now }
{
    let mut size = 0u128;
    for obligation in owed {
        size += u128::from(obligation.amount.ten_thousandths().unsigned_abs());
        if 1 << 63 <= size || !is_configured(config, obligation) {
            return false;
        }
    }
    true
}

// The net positions are those of what the period obliges to, where these lists are what each period obliges to.
fn are_positions(
    alloc: Global,
    config: &Config,
    owed: &[Vec<Obligation>],
    period: u64,
    told: &Sequence<NetPosition>,
) -> Result<bool, AllocError>
    requires { All (λ list. CanBeNetted config.now list.items) owed.now }
    ensures { IfOk result (λ are. are ≡ true → (events : List Event) → AreOwed (map (λ list. list.items) owed.now) events → told.now ≡ positions_in config.now (book_entries events) period) }
{
    let Some(owed) = owed.get(period as usize) else {
        return Ok(false);
    };
    let mut positions = Positions::new(alloc, config)?;
    add_each(&mut positions, owed.as_slice());
    Ok(positions.into_list().is_same(told))
}

// The rows are those of what the period of the statement obliges to, where these lists are what each period obliges to.
fn are_rows(
    alloc: Global,
    config: &Config,
    owed: &[Vec<Obligation>],
    ask: StatementOf,
    told: &Sequence<StatementRow>,
) -> Result<bool, AllocError>
    requires { All (λ list. CanBeNetted config.now list.items) owed.now }
    ensures { IfOk result (λ are. are ≡ true → (events : List Event) → AreOwed (map (λ list. list.items) owed.now) events → told.now ≡ statement_rows ask.party (obligations ask.period (book_entries events))) }
{
    let Some(owed) = owed.get(ask.period as usize) else {
        return Ok(false);
    };
    Ok(rows_of(alloc, config, owed.as_slice(), &ask.party)?.is_same(told))
}

// The call was told what its period obliges to, if it was told of any.
fn has_right_table(
    alloc: Global,
    config: &Config,
    owed: &[Vec<Obligation>],
    call: &Call,
) -> Result<bool, AllocError>
    requires { All (λ list. CanBeNetted config.now list.items) owed.now }
    ensures { IfOk result (λ has. has ≡ true → (events : List Event) → AreOwed (map (λ list. list.items) owed.now) events → HasRightTable config.now events call.now) }
{
    match (&call.command, &call.reply) {
        (
            _,
            Ok(
                Replied {
                    answer: Answer::Closed { period, positions },
                    ..
                },
            ),
        ) => are_positions(alloc, config, owed, *period, positions),
        (
            Command::Statement(ask),
            Ok(
                Replied {
                    answer: Answer::Statement { rows },
                    ..
                },
            ),
        ) => are_rows(alloc, config, owed, *ask, rows),
        _ => Ok(true),
    }
}

fn can_all_be_netted(config: &Config, owed: &[Vec<Obligation>]) -> bool
    ensures { result ≡ true → All (λ list. CanBeNetted config.now list.items) owed.now }
{
    for list in owed {
        if !can_be_netted(config, list.as_slice()) {
            return false;
        }
    }
    true
}

/// Whether all calls that were told net positions or rows were told what all events oblige to in their period. False too where
/// the events oblige to what cannot be netted.
pub fn are_tables_right(
    alloc: Global,
    config: &Config,
    events: &[Event],
    turns: &[Turn],
) -> Result<bool, AllocError>
    ensures { IfOk result (λ are. are ≡ true → All (λ turn. HasRightTable config.now events.now turn.call.now) turns.now) }
{
    let owed = owed_by_period(alloc, events)?;
    if !can_all_be_netted(config, owed.as_slice()) {
        return Ok(false);
    }
    for turn in turns {
        if !has_right_table(alloc, config, owed.as_slice(), turn.call)? {
            return Ok(false);
        }
    }
    Ok(true)
}
