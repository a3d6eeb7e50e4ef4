//! Schedule files.

ghost use Rattle.std.specs.Prelude.{◌≡◌, ◌≤◌, ◌+◌, ◌^◌, ℕ, List, ◌∷◌, [], ◌++◌, length, Some, None, true, false, IfErr, IfOk, MatchBool, MatchOption, MatchResult, OnOk};
ghost use Rattle.request_lines.specs.Answering.{is_write_fault};
ghost use Rattle.request_lines.specs.Lines.{lines_of};
ghost use Rattle.clear_cli.specs.Inner.ReadingFile.{AreCounted, Stands, ended_as};
ghost use Rattle.clear_cli.specs.ScheduleFile.{IsSchedule, begins_request, command_said, schedule_of};
ghost use Rattle.clear_cli.specs.ScheduleRead.{FailsToRead};

use crate::step_line::add_steps;
use cdr_checks::Command;
use house_core::Step;
use ocpi_types::{Config, Refusal};
use request_lines::{
    Answerer, Count, Device, LineRoom, ScriptFault, Source, command_of, run_lines,
};
use std::alloc::{AllocError, Global};
use std::io;
use std::marker::Model;

/// The calls and the steps of a file.
#[derive(Drop)]
pub struct Schedule {
    pub commands: Vec<Command>,
    pub steps: Vec<Step>,
}

impl Model for Schedule {
    ghost use Rattle.clear_cli.specs.ScheduleFile.{PlainSchedule};

    ghost Value = { PlainSchedule };

    ghost view = { λ schedule. record { commands = schedule.commands.items; steps = schedule.steps.items } };
}

/// Why a file is no schedule.
#[derive(Clone, Copy, PartialEq, Eq)]
pub enum ScheduleFault {
    /// The reader failed, or still had bytes after the most read calls.
    Read,

    /// The line of this number, from 1, is the first that is no request and no step, or that is too long.
    Line { line: u128 },

    NoMemory,
}

fn begins_request(line: &[u8]) -> bool
    ensures { result ≡ begins_request line.now }
{
    line.starts_with(b"{")
}

// The command of a request, where it is not refused.
fn command_said(
    alloc: Global,
    config: &Config,
    room: &mut LineRoom,
    line: &[u8],
) -> Result<Option<Command>, AllocError>
    ensures { IfOk result (λ command. command ≡ command_said config.now line.now) }
{
    match command_of(alloc, room, config, line) {
        Ok(command) => Ok(Some(command)),
        Err(Refusal::NoMemory) => Err(AllocError),
        Err(_) => Ok(None),
    }
}

// Adds the call of a request to the others, or returns that it is refused.
fn add_call(
    alloc: Global,
    config: &Config,
    room: &mut LineRoom,
    commands: &mut Vec<Command>,
    line: &[u8],
) -> Result<bool, AllocError>
    ensures { IfOk result (λ is_call. MatchOption (command_said config.now line.now)
        ((is_call ≡ false) × (commands.new.items ≡ commands.old.items))
        (λ command. (is_call ≡ true) × (commands.new.items ≡ commands.old.items ++ command ∷ []))) }
{
    let Some(command) = command_said(alloc, config, room, line)? else {
        return Ok(false);
    };
    commands.push(command)?;
    Ok(true)
}

// Adds the next line's call or steps to the others, or returns that with it they are no schedule.
fn add_line(
    alloc: Global,
    config: &Config,
    room: &mut LineRoom,
    schedule: &mut Schedule,
    line: &[u8],
) -> Result<bool, AllocError>
    ensures { IfOk result (λ is_sound. (lines : List (List ℕ)) → schedule_of config.now lines ≡ Some schedule.old →
        MatchBool is_sound (schedule_of config.now (lines ++ line.now ∷ []) ≡ Some schedule.new) (schedule_of config.now (lines ++ line.now ∷ []) ≡ None)) }
{
    let Schedule { commands, steps } = schedule;
    if begins_request(line) && steps.is_empty() {
        return add_call(alloc, config, room, commands, line);
    }
    add_steps(config, commands.as_slice(), steps, line)
}

// Adds the call or steps of one line more, and returns the first line at fault then: the line of this number comes after the others.
fn fault_with(
    alloc: Global,
    config: &Config,
    room: &mut LineRoom,
    schedule: &mut Schedule,
    fault: Option<u128>,
    number: u128,
    line: &[u8],
) -> Result<Option<u128>, AllocError>
    ensures { IfOk result (λ now. (lines : List (List ℕ)) → number ≡ length lines + 1 → Stands config.now lines schedule.old fault →
        Stands config.now (lines ++ line.now ∷ []) schedule.new now) }
{
    if fault.is_some() {
        return Ok(fault);
    }
    if add_line(alloc, config, room, schedule, line)? {
        return Ok(None);
    }
    Ok(Some(number))
}

/// A file on its way: the schedule of its lines so far, how many they are, and the first at fault.
#[derive(Drop)]
struct Reading<'c, 'r> {
    config: &'c Config,
    room: &'r mut LineRoom,
    schedule: Schedule,
    lines: u128,
    fault: Option<u128>,
}

impl Answerer for Reading<'_, '_> {
    ghost use Rattle.std.specs.Prelude.{◌≡◌, []};
    ghost use Rattle.clear_cli.specs.Inner.ReadingFile.{Goes, reads_more, reads_none};

    ghost rule = { record {
      answers = λ a lines text b. Goes a.config.now b.config.now (record { schedule = a.schedule; lines = a.lines; fault = a.fault }) lines text (record { schedule = b.schedule; lines = b.lines; fault = b.fault });
      gives_up = λ a line b. Unit {0};
    } };

    ghost answers_none = { λ a. reads_none a.config.now (record { schedule = a.schedule; lines = a.lines; fault = a.fault }) };

    ghost answers_more = { λ a b c ls ms t u h k. reads_more a.config.now b.config.now c.config.now
        (record { schedule = a.schedule; lines = a.lines; fault = a.fault }) (record { schedule = b.schedule; lines = b.lines; fault = b.fault })
        (record { schedule = c.schedule; lines = c.lines; fault = c.fault }) ls ms t u h k };

    fn answer(&mut self, alloc: Global, line: &[u8]) -> Result<Vec<u8>, AllocError> {
        self.lines = self.lines.saturating_add(1);
        self.fault = fault_with(
            alloc,
            self.config,
            self.room,
            &mut self.schedule,
            self.fault,
            self.lines,
            line,
        )?;
        Ok(Vec::new(alloc))
    }

    fn look_ahead(&mut self, _alloc: Global, _bytes: &[u8]) {}
}

// What a run over the lines of a file has come to.
fn ended(
    run: Result<Count, ScriptFault>,
    schedule: Schedule,
    fault: Option<u128>,
) -> Result<Schedule, ScheduleFault>
    requires { IfErr run (λ fault. is_write_fault fault ≡ false) }
    ensures ended { result ≡ ended_as run schedule fault }
    ensures counted { AreCounted run }
{
    match run {
        Ok(count) => {
            let _lines = count.lines;
            match fault {
                None => Ok(schedule),
                Some(line) => Err(ScheduleFault::Line { line }),
            }
        }
        Err(ScriptFault::Read) => Err(ScheduleFault::Read),
        Err(ScriptFault::NoMemory) => Err(ScheduleFault::NoMemory),
        Err(ScriptFault::LineTooLong { line }) => Err(ScheduleFault::Line {
            line: fault.unwrap_or(line),
        }),
        Err(ScriptFault::Write { .. }) => unreachable!(),
    }
}

/// Returns the calls and steps of the file of a reader.
pub fn read_schedule<R: Source>(
    alloc: Global,
    config: &Config,
    reader: &mut R,
) -> Result<Schedule, ScheduleFault>
    ensures told { (calls : ℕ) × (bytes : List ℕ) × (calls ≤ 2 ^ 40) × R.reading.gives reader.old calls bytes reader.new
        × MatchResult result (λ schedule. IsSchedule config.now (lines_of bytes) schedule)
        (λ fault. FailsToRead config.now (record { calls = calls; bytes = bytes; has_failed = R.reading.failed reader.new }) fault) }
    ensures end { OnOk result (R.reading.at_end reader.new) }
    ensures kept { OnOk result (R.reading.failed reader.new ≡ R.reading.failed reader.old) }
{
    let mut room = LineRoom::new(alloc);
    let mut reading = Reading {
        config,
        room: &mut room,
        schedule: Schedule {
            commands: Vec::new(alloc),
            steps: Vec::new(alloc),
        },
        lines: 0,
        fault: None,
    };
    let run = run_lines(alloc, reader, &mut Device::new(io::sink()), &mut reading);
    let Reading {
        config: _,
        room: _,
        schedule,
        lines: _,
        fault,
    } = reading;
    ended(run, schedule, fault)
}
