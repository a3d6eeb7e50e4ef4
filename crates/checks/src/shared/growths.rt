//! A command of one pass, to which memory may be refused.

ghost use Rattle.std.specs.Prelude.{◌≡◌};
ghost use Rattle.cdr_checks.specs.Admission.{IsAdmitted};

use crate::check_fault::CheckFault;
use crate::growths::{Doing, Outcome, Trial, announced_reply, do_lines, is_done_again, tell};
use cdr_checks::Command;
use ocpi_json::same::are_same;
use ocpi_types::Config;
use plain_house::{Refused, Replied, is_out_of_memory};
use shared_house::{Configured, Ended, FinishFault, House, Names, NoGate, Part, Pass};
use std::alloc::Global;
use std::sync::Wait;

// The reply to the command, by the call of its name.
fn replied_by_name<N: Names, R: Wait>(
    locks: &R,
    house: &House<N>,
    pass: &mut Pass<N>,
    command: Command,
) -> Result<Replied, Refused>
    requires { IsAdmitted N.BookEntries.config command }
{
    match command {
        Command::PutTariff(tariff) => house.put_tariff(locks, pass, &NoGate, tariff),
        Command::PutToken(token) => house.put_token(locks, pass, &NoGate, token),
        Command::Authorize(ask) => house.authorize(locks, pass, &NoGate, ask),
        Command::Release(release) => house.release(locks, pass, &NoGate, release),
        Command::Post(checked) => house.post(locks, pass, &NoGate, checked),
        Command::Close(close) => house.close(locks, pass, &NoGate, close),
        Command::Settle(settlement) => house.settle(locks, pass, &NoGate, settlement),
        Command::Exposure(ask) => house.exposure(locks, pass, &NoGate, ask),
        Command::Find(find) => house.find(locks, pass, &NoGate, find),
        Command::Statement(ask) => house.statement(locks, pass, &NoGate, ask),
    }
}

// The calls of a pass.
#[derive(Drop)]
struct Calls<'a, N: Names, R: Wait> {
    locks: &'a R,
    house: &'a House<N>,
    pass: &'a mut Pass<N>,
    // Whether a command is called by its name, and not by the call of any.
    is_by_name: bool,
}

impl<N: Names, R: Wait> Doing for Calls<'_, N, R> {
    ghost config = { λ calls. N.BookEntries.config };

    fn do_next(&mut self, command: Command) -> Result<Replied, Refused> {
        if self.is_by_name {
            replied_by_name(self.locks, self.house, self.pass, command)
        } else {
            self.house.call(self.locks, self.pass, &NoGate, command)
        }
    }
}

// How the command was done to which this is the reply. Where memory was refused, the command is done once more if it is to be.
fn seen<D: Doing>(
    alloc: Global,
    config: &Config,
    calls: &mut D,
    trial: &Trial<'_>,
    reply: &Result<Replied, Refused>,
    is_again: bool,
) -> Outcome
    requires { D.config calls.old ≡ config.now }
{
    if !is_out_of_memory(reply) {
        return Outcome::only_if(trial.is_expected(reply), Outcome::Done);
    }
    if !is_again {
        return Outcome::Unchanged;
    }
    let is_done = is_done_again(alloc, config, calls, trial);
    Outcome::only_if(is_done, Outcome::DoneAgain)
}

// How the lines are done, as far as the replies show it.
fn outcome_of<D: Doing>(
    rt: &HostRuntime,
    config: &Config,
    calls: &mut D,
    trial: &Trial<'_>,
    is_again: bool,
) -> Outcome
    requires { D.config calls.old ≡ config.now }
{
    do_lines(rt.alloc(), config, calls, trial.before);
    let kind = if is_again { "shared" } else { "ended" };
    match announced_reply(rt, config, calls, kind, trial) {
        Some(reply) => seen(rt.alloc(), config, calls, trial, &reply, is_again),
        None => Outcome::Otherwise,
    }
}

// How the pass does the lines.
fn called<N: Names, R: Wait>(
    rt: &HostRuntime,
    locks: &R,
    house: &House<N>,
    pass: &mut Pass<N>,
    trial: &Trial<'_>,
    is_again: bool,
) -> Outcome {
    let mut calls = Calls {
        locks,
        house,
        pass,
        is_by_name: is_again,
    };
    outcome_of(rt, house.config(), &mut calls, trial, is_again)
}

// Whether the pass keeps the call of this number as one that was refused memory. It need not if it has no place for it.
fn is_kept<N: Names>(pass: &Pass<N>, number: usize) -> bool {
    match pass.calls().get(number) {
        Some(call) => is_out_of_memory(&call.reply),
        None => !pass.has_place(),
    }
}

/// How the first of the passes does the lines, each by the call of its name where it is done once more. Where memory was refused to
/// the last one and it is not done once more, the pass is to keep it so.
pub fn outcome<N: Names, R: Wait>(
    rt: &HostRuntime,
    locks: &R,
    house: &House<N>,
    passes: &mut [Pass<N>],
    trial: &Trial<'_>,
    is_again: bool,
) -> Outcome {
    let Some(pass) = passes.first_mut() else {
        return Outcome::Otherwise;
    };
    match called(rt, locks, house, pass, trial, is_again) {
        Outcome::Unchanged => {
            let is_kept = is_kept(pass, trial.before.len());
            Outcome::only_if(is_kept, Outcome::Unchanged)
        }
        outcome => outcome,
    }
}

/// Tells how the last line was done by a pass of a house that ended so. The events are to be those that are expected then.
pub fn tell_ended(
    rt: &HostRuntime,
    trial: &Trial<'_>,
    outcome: Outcome,
    ended: &Result<Ended, FinishFault>,
) -> Result<(), CheckFault<'static>> {
    let events = match outcome {
        Outcome::Unchanged => trial.events_before,
        _ => trial.events,
    };
    let is_so = match ended {
        Ok(ended) => are_same(ended.events.as_slice(), events),
        Err(_) => false,
    };
    tell(rt, Outcome::only_if(is_so, outcome))
}
