//! The house in atomic steps. What it holds cannot be seen from outside, so a line prints only whether the steps found memory, and
//! which step did not.

ghost use Rattle.std.specs.Prelude.{All, ◌≡◌, IfOk};
ghost use Rattle.cdr_checks.specs.Admission.{IsAdmitted};

use super::telling::{announce, tell_memory};
use super::trial::Trial;
use crate::check_fault::CheckFault;
use cdr_checks::Command;
use command_line::Fault;
use house_core::{Action, Step, World};
use ocpi_types::Config;
use request_lines::{LineRoom, command_of};
use std::alloc::{AllocError, Global};
use std::io;

fn add_command(
    alloc: Global,
    config: &Config,
    line: &str,
    commands: &mut Vec<Command>,
) -> Result<(), AllocError>
    requires { All (IsAdmitted config.now) commands.old.items }
    ensures { All (IsAdmitted config.now) commands.new.items }
{
    let mut room = LineRoom::new(alloc);
    match command_of(alloc, &mut room, config, line.as_bytes()) {
        Ok(command) => Ok(commands.push(command)?),
        Err(_) => Ok(()),
    }
}

fn add_commands(
    alloc: Global,
    config: &Config,
    lines: &[&str],
    commands: &mut Vec<Command>,
) -> Result<(), AllocError>
    requires { All (IsAdmitted config.now) commands.old.items }
    ensures { All (IsAdmitted config.now) commands.new.items }
{
    for line in lines {
        add_command(alloc, config, *line, commands)?;
    }
    Ok(())
}

// The house in which the commands of all lines of the trial are to be called.
fn world_of(alloc: Global, config: &Config, trial: &Trial<'_>) -> Result<World, AllocError> {
    let mut commands = Vec::new(alloc);
    add_commands(alloc, config, trial.before, &mut commands)?;
    add_command(alloc, config, trial.line, &mut commands)?;
    World::new(alloc, config, commands)
}

// Takes the step. The action is returned where it found no memory.
fn take(world: &mut World, step: Step) -> Result<(), Action> {
    match world.step(step) {
        Ok(()) => Ok(()),
        Err(AllocError) => Err(step.action),
    }
}

// Has the call take its steps, up to one that finds no memory. Those that it cannot take change nothing.
fn call(world: &mut World, operators: usize, call: usize) -> Result<(), Action> {
    for action in [
        Action::Begin,
        Action::TakeBook,
        Action::TakeAccount,
        Action::Order,
        Action::PutAccount,
        Action::PutBook,
    ] {
        take(world, Step { call, action })?;
    }
    for operator in 0..operators {
        take(
            world,
            Step {
                call,
                action: Action::Collect { operator },
            },
        )?;
    }
    take(
        world,
        Step {
            call,
            action: Action::End,
        },
    )
}

// Only an Order step takes memory.
fn is_order(action: Action) -> bool {
    match action {
        Action::Order => true,
        _ => false,
    }
}

// Ends the line. Where a step found no memory, the call goes on at that one.
fn tell(
    rt: &HostRuntime,
    world: &mut World,
    operators: usize,
    number: usize,
    refused: Result<(), Action>,
) -> io::Result<()> {
    let Err(action) = refused else {
        return println!(rt);
    };
    let place = if is_order(action) {
        "at Order"
    } else {
        "at another step"
    };
    match call(world, operators, number) {
        Ok(()) => println!(rt; " {place}, then done"),
        Err(_) => println!(rt; " {place}, then no memory"),
    }
}

fn try_last(
    rt: &HostRuntime,
    world: &mut World,
    operators: usize,
    trial: &Trial<'_>,
) -> io::Result<()> {
    let number = trial.before.len();
    for earlier in 0..number {
        call(world, operators, earlier).map_err(|_| AllocError)?;
    }
    announce(rt, trial, "steps")?;
    let taken = call(world, operators, number);
    tell_memory(rt, taken.is_ok())?;
    tell(rt, world, operators, number, taken)
}

/// Does the lines in steps, one call after another, and tells how the last one went.
pub fn try_steps(
    rt: &HostRuntime,
    config: &Config,
    trial: &Trial<'_>,
) -> Result<(), CheckFault<'static>> {
    let mut world = world_of(rt.alloc(), config, trial)?;
    match try_last(rt, &mut world, config.operators.as_slice().len(), trial) {
        Ok(()) => Ok(()),
        Err(_) => Err(CheckFault::from(Fault::CannotWrite)),
    }
}
