//! One event, added again.

ghost use Rattle.std.specs.Prelude.{◌≡◌, ◌↔◌, true, false, Some, IfOk};
ghost use Rattle.cdr_checks.specs.Admission.{IsAdmitted};
ghost use Rattle.plain_house.specs.House.{events_after, verdict};
ghost use Rattle.plain_house.specs.Known.{known};
ghost use Rattle.event_commands.specs.AskedAgain.{IsAskedAgain};
ghost use Rattle.new_configuration.specs.Inner.Added.{IsAdded};

use cdr_checks::{Ask, Command};
use event_commands::Platforms;
use period_order::BookHouse;
use plain_house::{Event, Sequential, adds_event, is_out_of_memory, replies_tell_events};
use std::alloc::AllocError;

// Does the command, and returns whether it adds this event.
fn adds(house: &mut BookHouse, command: Command, event: &Event) -> Result<bool, AllocError>
    requires { IsAdmitted house.old.config command }
    ensures config { house.new.config ≡ house.old.config }
    ensures events { IfOk result (λ added. house.new.events ≡ events_after house.old.config house.old.events command) }
    ensures added { IfOk result (λ added. (added ≡ true) ↔ ((verdict house.old.config (known house.old.events) command).event ≡ Some event.now)) }
{
    replies_tell_events();
    let reply = house.do_command(command);
    if is_out_of_memory(&reply) {
        return Err(AllocError);
    }
    if !adds_event(&reply) {
        return Ok(false);
    }
    Ok(house.is_last(event))
}

/// Asks for an event, and returns whether that adds it.
///
/// # Errors
///
/// `AllocError` if an allocation fails.
pub fn adds_asked(
    platforms: &Platforms,
    house: &mut BookHouse,
    asked: Ask,
    event: &Event,
) -> Result<bool, AllocError>
    requires { house.old.config ≡ platforms.now }
    ensures config { house.new.config ≡ platforms.now }
    ensures added { IfOk result (λ added. added ≡ true → IsAdded platforms.now house.old.events event.now house.new.events) }
    ensures otherwise { IfOk result (λ added. added ≡ false → IsAskedAgain platforms.now (known house.old.events) event.now asked → ⊥) }
{
    match platforms.admitted_for(asked) {
        Some(command) => {
            let added = adds(house, command, event)?;
            Ok(added)
        }
        None => Ok(false),
    }
}
