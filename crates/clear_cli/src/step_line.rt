//! Lines of steps.

ghost use Rattle.std.specs.Prelude.{◌≡◌, ◌++◌, map, true, false, OnOk, IfOk, MatchOption};
ghost use Rattle.std.specs.Char.{is_ascii, is_ascii_digit};
ghost use Rattle.std.specs.List.{list_all};
ghost use Rattle.clear_cli.specs.StepLine.{actions_of, all_steps, action_named, call_named, collect_named, collects, is_call_number, step_line_of, step_named, steps_of_line, steps_said, steps_through_books, taken_by};

use cdr_checks::Command;
use house_core::{Action, Step};
use ocpi_types::{Config, Party};
use period_order::operator_number;
use std::alloc::AllocError;
use std::str;

/// What a line of steps names.
#[derive(Clone, Copy, PartialEq, Eq)]
pub enum StepName {
    /// All steps of the call, in their order.
    All,
    One(Action),
}

/// What a line of steps says.
#[derive(Clone, Copy, PartialEq, Eq)]
pub struct StepLine {
    /// The number of the call, from 0.
    pub call: usize,
    pub named: StepName,
}

const IN_BOOK: [Action; 5] = [
    Action::Begin,
    Action::TakeBook,
    Action::Order,
    Action::PutBook,
    Action::End,
];

const IN_ACCOUNT: [Action; 5] = [
    Action::Begin,
    Action::TakeAccount,
    Action::Order,
    Action::PutAccount,
    Action::End,
];

const IN_BOTH: [Action; 7] = [
    Action::Begin,
    Action::TakeBook,
    Action::TakeAccount,
    Action::Order,
    Action::PutAccount,
    Action::PutBook,
    Action::End,
];

fn collect_named(config: &Config, text: &str) -> Option<Action>
    ensures { result ≡ collect_named config.now text.now }
{
    let party = Party::read(text.strip_prefix("Collect ")?)?;
    if !config.is_operator(&party) {
        return None;
    }
    let operator = operator_number(config, &party);
    Some(Action::Collect { operator })
}

fn action_named(config: &Config, text: &str) -> Option<Action>
    ensures { result ≡ action_named config.now text.now }
{
    match text {
        "Begin" => Some(Action::Begin),
        "TakeBook" => Some(Action::TakeBook),
        "TakeAccount" => Some(Action::TakeAccount),
        "Order" => Some(Action::Order),
        "PutAccount" => Some(Action::PutAccount),
        "PutBook" => Some(Action::PutBook),
        "Abandon" => Some(Action::Abandon),
        "End" => Some(Action::End),
        _ => collect_named(config, text),
    }
}

fn step_named(config: &Config, text: &str) -> Option<StepName>
    ensures { result ≡ step_named config.now text.now }
{
    match text {
        "All" => Some(StepName::All),
        _ => Some(StepName::One(action_named(config, text)?)),
    }
}

fn are_digits(text: &[u8]) -> bool
    ensures { result ≡ list_all is_ascii_digit text.now }
{
    text.iter().all(|byte| byte.is_ascii_digit())
}

fn is_call_number(text: &str) -> bool
    ensures { result ≡ is_call_number text.now }
{
    let digits = text.as_bytes();
    !digits.is_empty() && digits.len() <= 18 && are_digits(digits) && digits[0] != b'0'
}

// The number of the call, from 0, that a text names from 1.
fn call_named(text: &str) -> Option<usize>
    ensures { result ≡ call_named text.now }
{
    if !is_call_number(text) {
        return None;
    }
    let number = text.parse::<usize>().ok()?;
    Some(number - 1)
}

fn is_ascii(text: &[u8]) -> bool
    ensures { result ≡ list_all is_ascii text.now }
{
    text.iter().all(|byte| byte.is_ascii())
}

fn step_line_of(config: &Config, line: &[u8]) -> Option<StepLine>
    ensures { result ≡ step_line_of config.now line.now }
{
    if !is_ascii(line) {
        return None;
    }
    let text = str::from_utf8(line).ok()?;
    let (number, name) = text.split_once(' ')?;
    let call = call_named(number)?;
    let named = step_named(config, name)?;
    Some(StepLine { call, named })
}

fn add_taken(steps: &mut Vec<Step>, call: usize, actions: &[Action]) -> Result<(), AllocError>
    ensures { OnOk result (steps.new.items ≡ steps.old.items ++ map (taken_by call) actions.now) }
{
    for action in actions {
        let action = *action;
        steps.push(Step { call, action })?;
    }
    Ok(())
}

fn add_collects(steps: &mut Vec<Step>, call: usize, books: usize) -> Result<(), AllocError>
    ensures { OnOk result (steps.new.items ≡ steps.old.items ++ map (taken_by call) (collects books)) }
{
    for operator in 0..books {
        let action = Action::Collect { operator };
        steps.push(Step { call, action })?;
    }
    Ok(())
}

fn add_steps_through_books(
    config: &Config,
    steps: &mut Vec<Step>,
    call: usize,
) -> Result<(), AllocError>
    ensures { OnOk result (steps.new.items ≡ steps.old.items ++ map (taken_by call) (steps_through_books config.now)) }
{
    add_taken(steps, call, &[Action::Begin, Action::Order])?;
    add_collects(steps, call, config.operators.as_slice().len())?;
    add_taken(steps, call, &[Action::End])
}

fn add_all(
    config: &Config,
    steps: &mut Vec<Step>,
    call: usize,
    command: &Command,
) -> Result<(), AllocError>
    ensures { OnOk result (steps.new.items ≡ steps.old.items ++ map (taken_by call) (all_steps config.now command.now)) }
{
    match command {
        Command::PutTariff(_) | Command::Find(_) => add_taken(steps, call, &IN_BOOK),
        Command::PutToken(_)
        | Command::Authorize(_)
        | Command::Release(_)
        | Command::Settle(_)
        | Command::Exposure(_) => add_taken(steps, call, &IN_ACCOUNT),
        Command::Post(_) => add_taken(steps, call, &IN_BOTH),
        Command::Close(_) | Command::Statement(_) => add_steps_through_books(config, steps, call),
    }
}

fn add_named(
    config: &Config,
    steps: &mut Vec<Step>,
    call: usize,
    command: &Command,
    named: StepName,
) -> Result<(), AllocError>
    ensures { OnOk result (steps.new.items ≡ steps.old.items ++ map (taken_by call) (actions_of config.now command.now named)) }
{
    match named {
        StepName::All => add_all(config, steps, call, command),
        StepName::One(action) => add_taken(steps, call, &[action]),
    }
}

/// Adds the steps of a line to the others. False, and nothing is added, if it has none: it has another form, or names a call that
/// is none of the commands.
///
/// `AllocError` if an allocation fails.
pub fn add_steps(
    config: &Config,
    commands: &[Command],
    steps: &mut Vec<Step>,
    line: &[u8],
) -> Result<bool, AllocError>
    ensures { IfOk result (λ has_steps. MatchOption (steps_of_line config.now commands.now line.now)
        ((has_steps ≡ false) × (steps.new.items ≡ steps.old.items))
        (λ more. (has_steps ≡ true) × (steps.new.items ≡ steps.old.items ++ more))) }
{
    let Some(StepLine { call, named }) = step_line_of(config, line) else {
        return Ok(false);
    };
    let Some(command) = commands.get(call) else {
        return Ok(false);
    };
    add_named(config, steps, call, command, named)?;
    Ok(true)
}
