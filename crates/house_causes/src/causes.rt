//! Why a house refuses a command.

ghost use Rattle.std.specs.Prelude.{◌≡◌, option_copied, option_map};
ghost use Rattle.house_causes.specs.Causes.{above_limit, answered, authorize_in, cause_of, cdr_in, conflict, find_in, not_covered, period_in, refused, release_in, said_in, settlement_in};

use crate::bookings::{booking_conflict, no_cdr};
use crate::credits::{credit_differs, credited_already, no_original, of_credit, too_late};
use crate::holds::unknown_hold;
use crate::house_cause::{HouseCause, HouseReason};
use crate::periods::{not_closed, not_current, settled_already};
use crate::stores::full;
use crate::tokens::{blocked, unknown_token};
use crate::versions::{not_registered, version_conflict};
use cdr_checks::{Authorize, Command, Find, Place, Release, Settlement};
use exact_money::Amount;
use known_events::KnownEvents;
use ocpi_json::name::Name;
use ocpi_types::{Cdr, Config, Refusal};
use plain_house::{Answer, OverLimit, Refused, Replied};

fn cdr_in(command: &Command) -> Option<&Cdr>
    ensures { option_map (λ cdr. cdr.now) result ≡ cdr_in command.now }
{
    let Command::Post(checked) = command else {
        return None;
    };
    Some(checked.cdr())
}

fn authorize_in(command: &Command) -> Option<&Authorize>
    ensures { option_copied result ≡ authorize_in command.now }
{
    let Command::Authorize(ask) = command else {
        return None;
    };
    Some(ask)
}

fn release_in(command: &Command) -> Option<&Release>
    ensures { option_copied result ≡ release_in command.now }
{
    let Command::Release(release) = command else {
        return None;
    };
    Some(release)
}

fn settlement_in(command: &Command) -> Option<&Settlement>
    ensures { option_copied result ≡ settlement_in command.now }
{
    let Command::Settle(settlement) = command else {
        return None;
    };
    Some(settlement)
}

fn find_in(command: &Command) -> Option<&Find>
    ensures { option_copied result ≡ find_in command.now }
{
    let Command::Find(find) = command else {
        return None;
    };
    Some(find)
}

// The period to close, to settle or to state.
fn period_in(command: &Command) -> Option<u64>
    ensures { result ≡ period_in command.now }
{
    match command {
        Command::Close(close) => Some(close.period),
        Command::Settle(settlement) => Some(settlement.period),
        Command::Statement(ask) => Some(ask.period),
        _ => None,
    }
}

// Another tariff stands under the version, or another CDR under the id.
fn conflict(events: &KnownEvents, command: &Command) -> Option<HouseCause>
    ensures { result ≡ conflict events.now command.now }
{
    match command {
        Command::PutTariff(tariff) => version_conflict(events, tariff),
        Command::Post(checked) => booking_conflict(events, checked.cdr()),
        _ => None,
    }
}

// With the CDR an exposure would be above its limit.
fn above_limit(exposure: Amount, limit: Amount, pair: bool) -> HouseCause
    ensures { result ≡ above_limit exposure limit pair }
{
    let reason = HouseReason::AboveLimit {
        exposure,
        limit,
        pair,
    };
    HouseCause::at(Place::at(Name::Cdr), reason)
}

// With the hold an exposure would be above its limit.
fn not_covered(over: &OverLimit) -> HouseCause
    ensures { result ≡ not_covered over.now }
{
    HouseCause::at(Place::at(Name::Provider), HouseReason::NotCovered(*over))
}

// Why the house refuses a command so. What is refused before a house is asked, or as an allocation fails, has no cause here.
fn refused(
    config: &Config,
    events: &KnownEvents,
    command: &Command,
    refusal: &Refusal,
) -> Option<HouseCause>
    ensures { result ≡ refused config.now events.now command.now refusal.now }
{
    match refusal {
        Refusal::Conflict => conflict(events, command),
        Refusal::TariffNotRegistered => not_registered(events, cdr_in(command)?),
        Refusal::UnknownToken => unknown_token(events, authorize_in(command)?),
        Refusal::UnknownHold => unknown_hold(events, release_in(command)?),
        Refusal::UnknownOriginal => no_original(cdr_in(command)?),
        Refusal::CreditOfCredit => of_credit(events, cdr_in(command)?),
        Refusal::AlreadyCredited => credited_already(events, cdr_in(command)?),
        Refusal::CreditDiffers => credit_differs(config, events, cdr_in(command)?),
        Refusal::NotCurrent { current } => Some(not_current(period_in(command)?, *current)),
        Refusal::PeriodOpen => Some(not_closed(events, period_in(command)?)),
        Refusal::AlreadySettled => Some(settled_already(events, settlement_in(command)?)),
        Refusal::UnknownCdr => Some(no_cdr(find_in(command)?)),
        Refusal::Full { what } => Some(full(config, command, *what)),
        Refusal::OverLimit {
            exposure,
            limit,
            pair,
        } => Some(above_limit(*exposure, *limit, *pair)),
        Refusal::TooLate { original, current } => Some(too_late(*original, *current)),
        _ => None,
    }
}

// Why the house answers BLOCKED or NO_CREDIT.
fn answered(command: &Command, answer: &Answer) -> Option<HouseCause>
    ensures { result ≡ answered command.now answer.now }
{
    match answer {
        Answer::Blocked => Some(blocked(authorize_in(command)?)),
        Answer::NoCredit(over) => Some(not_covered(over)),
        _ => None,
    }
}

/// Why a house replies to the command so after these events: the cause of its refusal, or of the answer BLOCKED or NO_CREDIT. No other
/// reply has a cause.
pub fn cause_of(
    config: &Config,
    events: &KnownEvents,
    command: &Command,
    reply: &Result<Replied, Refused>,
) -> Option<HouseCause>
    ensures { result ≡ cause_of config.now events.now command.now (said_in reply.now) }
{
    match reply {
        Ok(replied) => answered(command, &replied.answer),
        Err(refused_so) => refused(config, events, command, &refused_so.refusal),
    }
}
