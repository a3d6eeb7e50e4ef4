//! What a line asks for, done if the configuration in force allows it.

ghost use Rattle.std.specs.Prelude.{◌≡◌, ◌<◌, length, slice_get, Some, true, false, IfOk, OnErr};
ghost use Rattle.cdr_checks.specs.Admission.{IsAdmitted};
ghost use Rattle.house_statements.specs.Order.{event_name};
ghost use Rattle.plain_house.specs.declared.event.Event.{Event as EventValue};
ghost use Rattle.plain_house.specs.House.{reply_of};
ghost use Rattle.new_configuration.specs.TakenOver.{IsFirstOtherwise};
ghost use Rattle.line_streams.specs.Change.{IsChanged, IsDone};
ghost use Rattle.line_streams.specs.Given.{IsReplyTo, IsReplyToChange};
ghost use Rattle.line_streams.specs.State.{reply_text, shown_house};
ghost use Rattle.line_streams.specs.declared.reply.StreamReply.TheVariants.{House};
ghost use Rattle.line_streams.specs.Inner.Allowed.{IsAllowed, IsAllowedDone, IsCommandDone, IsReplyToAllowed};
ghost use Rattle.line_streams.specs.Inner.Base.{base_of};

use crate::allowed::{Allowed, allow};
use crate::asked::Asked;
use crate::in_force::{InForce, judges_commands};
use crate::reply::StreamReply;
use cdr_checks::Command;
use house_statements::event_name;
use new_configuration::{TakeOverFault, house_of, loosened};
use ocpi_types::{Config, Shared, TryCopy};
use period_order::BookHouse;
use plain_house::{Event, is_out_of_memory};
use std::alloc::{AllocError, Global};

/// Does a command as a script does.
fn do_command(
    in_force: &InForce,
    house: &mut BookHouse,
    command: Command,
) -> Result<StreamReply, AllocError>
    requires base { house.old.config ≡ base_of in_force.now }
    requires admitted { IsAdmitted in_force.now.config command }
    ensures base { house.new.config ≡ house.old.config }
    ensures ok { IfOk result (λ reply. IsCommandDone (shown_house in_force.now.config house.old) command (reply_text in_force.now.config reply)
        (shown_house in_force.now.config house.new)) }
    ensures given { IfOk result (λ reply. reply ≡ House (reply_of in_force.now.config house.old.events command)) }
    ensures err { OnErr result (house.new ≡ house.old) }
{
    judges_commands(in_force, house);
    let reply = house.do_command_under(&in_force.config, command);
    if is_out_of_memory(&reply) {
        return Err(AllocError);
    }
    Ok(StreamReply::House(reply))
}

/// Returns the name of the event of this number.
fn name_at(events: &[Event], number: u64) -> &'static str
    requires { number < length events.now }
    ensures { (event : EventValue) → slice_get events.now number ≡ Some event → result.now ≡ event_name event }
{
    event_name(&events[number as usize])
}

/// Goes on under a configuration under which the event of this number would come out otherwise, if each event comes out again under the
/// loosened configuration.
fn lower_to(
    alloc: Global,
    in_force: &mut InForce,
    house: &mut BookHouse,
    change: Config,
    events: &[Event],
    outside: u64,
) -> Result<StreamReply, AllocError>
    requires base { house.old.config ≡ base_of in_force.old }
    requires events { events.now ≡ house.old.events }
    requires outside { IsFirstOtherwise change house.old.events outside }
    ensures base { house.new.config ≡ base_of in_force.new }
    ensures ok { IfOk result (λ reply. IsChanged (shown_house in_force.old.config house.old) change (reply_text in_force.old.config reply) (shown_house in_force.new.config house.new)) }
    ensures given { IfOk result (λ reply. IsReplyToChange (shown_house in_force.old.config house.old) change reply) }
    ensures alike { IfOk result (λ reply. reply_text in_force.new.config reply ≡ reply_text in_force.old.config reply) }
    ensures unchanged { OnErr result (house.new ≡ house.old) }
    ensures in_force { OnErr result (in_force.new ≡ in_force.old) }
{
    let at = events.len() as u64;
    match house_of(alloc, loosened(alloc, &change)?, events) {
        Ok(new) => {
            let kind = name_at(events, outside);
            *in_force = InForce {
                config: Shared::new(alloc, change)?,
                is_lowered: true,
            };
            *house = new;
            Ok(StreamReply::Lowered {
                at,
                event: outside,
                kind,
            })
        }
        Err(TakeOverFault::Otherwise { event }) => {
            let kind = name_at(events, event);
            Ok(StreamReply::Otherwise { at, event, kind })
        }
        Err(TakeOverFault::NoMemory) => Err(AllocError),
    }
}

/// Goes on under another configuration, if each event comes out again under it or once it is loosened.
fn change_to(
    alloc: Global,
    in_force: &mut InForce,
    house: &mut BookHouse,
    change: Config,
) -> Result<StreamReply, AllocError>
    requires { house.old.config ≡ base_of in_force.old }
    ensures base { house.new.config ≡ base_of in_force.new }
    ensures ok { IfOk result (λ reply. IsChanged (shown_house in_force.old.config house.old) change (reply_text in_force.old.config reply) (shown_house in_force.new.config house.new)) }
    ensures given { IfOk result (λ reply. IsReplyToChange (shown_house in_force.old.config house.old) change reply) }
    ensures alike { IfOk result (λ reply. reply_text in_force.new.config reply ≡ reply_text in_force.old.config reply) }
    ensures unchanged { OnErr result (house.new ≡ house.old) }
    ensures in_force { OnErr result (in_force.new ≡ in_force.old) }
{
    let events = house.events(alloc)?;
    match house_of(alloc, change.copy(alloc)?, events.as_slice()) {
        Ok(new) => {
            *in_force = InForce {
                config: Shared::new(alloc, change)?,
                is_lowered: false,
            };
            *house = new;
            Ok(StreamReply::Configured {
                at: events.len() as u64,
            })
        }
        Err(TakeOverFault::Otherwise { event }) => {
            lower_to(alloc, in_force, house, change, events.as_slice(), event)
        }
        Err(TakeOverFault::NoMemory) => Err(AllocError),
    }
}

/// Does what is allowed, under the configuration in force.
///
/// # Errors
///
/// `AllocError` if an allocation fails; configuration and house are as before.
pub fn do_allowed(
    alloc: Global,
    in_force: &mut InForce,
    house: &mut BookHouse,
    allowed: Allowed,
) -> Result<StreamReply, AllocError>
    requires base { house.old.config ≡ base_of in_force.old }
    requires allowed { IsAllowed in_force.old.config allowed }
    ensures base { house.new.config ≡ base_of in_force.new }
    ensures ok { IfOk result (λ reply. IsAllowedDone (shown_house in_force.old.config house.old) allowed (reply_text in_force.old.config reply) (shown_house in_force.new.config house.new)) }
    ensures given { IfOk result (λ reply. IsReplyToAllowed (shown_house in_force.old.config house.old) allowed reply) }
    ensures alike { IfOk result (λ reply. reply_text in_force.new.config reply ≡ reply_text in_force.old.config reply) }
    ensures unchanged { OnErr result (house.new ≡ house.old) }
    ensures in_force { OnErr result (in_force.new ≡ in_force.old) }
{
    match allowed {
        Allowed::Command(command) => do_command(in_force, house, command),
        Allowed::Change(config) => change_to(alloc, in_force, house, config),
    }
}

/// Does what is asked for if the configuration in force allows it, and refuses it otherwise.
///
/// # Errors
///
/// `AllocError` if an allocation fails; configuration and house are as before.
pub fn do_asked(
    alloc: Global,
    in_force: &mut InForce,
    house: &mut BookHouse,
    asked: Asked,
) -> Result<StreamReply, AllocError>
    requires { house.old.config ≡ base_of in_force.old }
    ensures base { house.new.config ≡ base_of in_force.new }
    ensures ok { IfOk result (λ reply. IsDone (shown_house in_force.old.config house.old) asked (reply_text in_force.old.config reply) (shown_house in_force.new.config house.new)) }
    ensures given { IfOk result (λ reply. IsReplyTo (shown_house in_force.old.config house.old) asked reply) }
    ensures alike { IfOk result (λ reply. reply_text in_force.new.config reply ≡ reply_text in_force.old.config reply) }
    ensures unchanged { OnErr result (house.new ≡ house.old) }
    ensures in_force { OnErr result (in_force.new ≡ in_force.old) }
{
    match allow(&in_force.config, asked) {
        Ok(allowed) => do_allowed(alloc, in_force, house, allowed),
        Err(refusal) => Ok(StreamReply::refused(refusal)),
    }
}
