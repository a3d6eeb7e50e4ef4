//! A house that takes over the events of another under its own configuration.

ghost use Rattle.std.specs.Prelude.{◌≡◌, ℕ, [], true, false, IfOk, IfErr, OnOk};
ghost use Rattle.plain_house.specs.Legal.{IsGiven, IsLegal};
ghost use Rattle.new_configuration.specs.Inner.Added.{IsAdded};
ghost use Rattle.new_configuration.specs.Inner.ValidTokens.{HaveValid};
ghost use Rattle.new_configuration.specs.TakenOver.{IsFirstOtherwise, IsTakenOver};
ghost use Rattle.new_configuration.specs.declared.takeover.TakeOverFault.TheVariants as fault;

use super::added::adds_asked;
use super::holds::adds_hold;
use super::valid_tokens::ValidTokens;
use event_commands::{Platforms, ask_again, asked_again_is_given, holds_are_asked_again};
use ocpi_types::{Config, TryCopy};
use period_order::BookHouse;
use plain_house::{Event, commands_keep_lists_legal, empty_lists_are_legal};
use std::alloc::{AllocError, Global};
use thiserror::Error;

/// Why a configuration is not taken.
#[derive(Clone, Copy, Debug, PartialEq, Eq, Error)]
pub enum TakeOverFault {
    /// The number, from 0, of the first event that no admitted command adds under the configuration.
    #[error("no command adds event {event}")]
    Otherwise { event: u64 },

    #[error("no memory")]
    NoMemory,
}

impl From<AllocError> for TakeOverFault {
    ghost use Rattle.std.specs.Prelude.{◌≡◌};
    ghost use Rattle.new_configuration.specs.declared.takeover.TakeOverFault.TheVariants.{NoMemory};

    ghost from_gives = { λ _ e. e ≡ NoMemory };

    fn from(_error: AllocError) -> TakeOverFault {
        TakeOverFault::NoMemory
    }
}

// Adds the event to the house again, and returns whether some command does.
fn adds_again(
    alloc: Global,
    platforms: &Platforms,
    house: &mut BookHouse,
    valid: &mut ValidTokens,
    event: &Event,
) -> Result<bool, AllocError>
    requires config { house.old.config ≡ platforms.now }
    requires tokens { HaveValid house.old.events valid.old }
    ensures config { house.new.config ≡ platforms.now }
    ensures added { IfOk result (λ added. added ≡ true → IsAdded platforms.now house.old.events event.now house.new.events) }
    ensures tokens { IfOk result (λ added. added ≡ true → HaveValid house.old.events valid.new) }
    ensures otherwise { IfOk result (λ added. added ≡ false → IsGiven platforms.now house.old.events event.now → ⊥) }
{
    asked_again_is_given();
    holds_are_asked_again();
    if let Event::Authorised(hold) = event {
        return adds_hold(alloc, platforms, house, valid, hold);
    }
    match ask_again(alloc, event)? {
        Some(asked) => adds_asked(platforms, house, asked, event),
        None => Ok(false),
    }
}

// Adds all events to an empty house again.
fn add_events(
    alloc: Global,
    platforms: &Platforms,
    house: &mut BookHouse,
    events: &[Event],
) -> Result<(), TakeOverFault>
    requires config { house.old.config ≡ platforms.now }
    requires empty { house.old.events ≡ [] }
    ensures config { house.new.config ≡ platforms.now }
    ensures events { OnOk result (house.new.events ≡ events.now) }
    ensures legal { OnOk result (IsLegal platforms.now events.now) }
    ensures otherwise { IfErr result (λ why. (number : ℕ) → why ≡ fault.Otherwise number → IsFirstOtherwise platforms.now events.now number) }
{
    commands_keep_lists_legal();
    empty_lists_are_legal();
    let mut valid = ValidTokens::new(alloc);
    for (number, event) in events.iter().enumerate() {
        if !adds_again(alloc, platforms, house, &mut valid, event)? {
            return Err(TakeOverFault::Otherwise {
                event: number as u64,
            });
        }
        valid.add(alloc, event)?;
    }
    Ok(())
}

/// Returns a house of the configuration that has these events, if they are a legal list under it. Each event is asked for again, one
/// after the other, so the time is linear in their number.
///
/// # Errors
///
/// - `Otherwise` with the number of the first event that no admitted command adds to those before it;
/// - `NoMemory` if an allocation fails.
pub fn house_of(alloc: Global, config: Config, events: &[Event]) -> Result<BookHouse, TakeOverFault>
    ensures ok { IfOk result (λ house. house ≡ record { config = config; events = events.now }) }
    ensures legal { OnOk result (IsLegal config events.now) }
    ensures otherwise { IfErr result (λ why. (number : ℕ) → why ≡ fault.Otherwise number → IsFirstOtherwise config events.now number) }
{
    let mut house = BookHouse::new(alloc, config.copy(alloc)?)?;
    let platforms = Platforms::new(alloc, config)?;
    add_events(alloc, &platforms, &mut house, events)?;
    Ok(house)
}

// Returns another house that has the events of this one under the configuration.
fn taken_over(alloc: Global, house: &BookHouse, config: Config) -> Result<BookHouse, TakeOverFault>
    ensures ok { IfOk result (λ new. IsTakenOver house.now config new) }
    ensures otherwise { IfErr result (λ why. (number : ℕ) → why ≡ fault.Otherwise number → IsFirstOtherwise config house.now.events number) }
{
    let events = house.events(alloc)?;
    house_of(alloc, config, events.as_slice())
}

/// Returns a house of the new configuration that has the events of this one, if they are a legal list under it. The time is linear
/// in their number, and both houses are in memory at once.
///
/// # Errors
///
/// The house as it was, with:
///
/// - `Otherwise` and the number of the first event that no admitted command adds to those before it;
/// - `NoMemory` if an allocation fails.
pub fn with_configuration(
    alloc: Global,
    house: BookHouse,
    config: Config,
) -> Result<BookHouse, (BookHouse, TakeOverFault)>
    ensures ok { IfOk result (λ new. IsTakenOver house config new) }
    ensures kept { IfErr result (λ left. left.0 ≡ house) }
    ensures otherwise { IfErr result (λ left. (number : ℕ) → left.1 ≡ fault.Otherwise number → IsFirstOtherwise config house.events number) }
{
    match taken_over(alloc, &house, config) {
        Ok(new) => Ok(new),
        Err(why) => Err((house, why)),
    }
}
