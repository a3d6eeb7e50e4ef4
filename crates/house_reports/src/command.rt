//! The commands.

use crate::{balances, explain_lines, statements};
use command_line::{Arguments, Fault};
use request_lines::Source;
use std::cell::Cell;
use std::process::ExitCode;

/// A report on a house or its lines.
#[derive(Clone, Copy)]
pub enum Command {
    Statements,
    Balances,
    ExplainLines,
}

/// The lines of a reader.
#[derive(Clone, Copy)]
pub enum Lines<'a> {
    /// The lines of a script under the configuration in this text.
    Script { config: &'a [u8] },
    /// The lines of a stream that begins under the configuration in this text.
    Stream { config: &'a [u8] },
}

impl Command {
    /// Returns the command of this name.
    pub fn of(name: &str) -> Option<Command> {
        match name {
            "statements" => Some(Command::Statements),
            "balances" => Some(Command::Balances),
            "explain_lines" | "explain-lines" => Some(Command::ExplainLines),
            _ => None,
        }
    }

    // Performs the command by its arguments, and returns the exit status. It notes that the reader of the output has gone.
    fn perform<R: Source>(
        self,
        rt: &HostRuntime,
        is_gone: &Cell<bool>,
        arguments: &Arguments<'_>,
        lines: Lines<'_>,
        reader: &mut R,
    ) -> Result<u8, Fault<'static>> {
        match self {
            Command::Statements => statements::perform(rt, is_gone, lines, reader),
            Command::Balances => balances::perform(rt, is_gone, arguments, lines, reader),
            Command::ExplainLines => explain_lines::perform(rt, is_gone, lines, reader),
        }
    }

    /// Performs the command by its arguments over the lines of a reader, and returns the exit status.
    ///
    /// # Errors
    ///
    /// The error that ends the command early. If the reader of the output has gone, the error is not reported: its status is returned.
    pub fn done<R: Source>(
        self,
        rt: &HostRuntime,
        arguments: &Arguments<'_>,
        lines: Lines<'_>,
        reader: &mut R,
    ) -> Result<ExitCode, Fault<'static>> {
        let is_gone = Cell::new(false);
        match self.perform(rt, &is_gone, arguments, lines, reader) {
            Ok(status) => Ok(ExitCode::from(status)),
            Err(fault) if is_gone.get() => Ok(ExitCode::from(fault.status())),
            Err(fault) => Err(fault),
        }
    }
}
