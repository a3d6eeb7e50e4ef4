//! The commands.

ghost use Rattle.kept_batches.specs.Text.{IsLine};

use crate::{check, configure, keep, log, stream, upgrade};
use command_line::{Arguments, Fault};
use std::process::ExitCode;

/// A command that answers a stream of lines, or reads a store.
#[derive(Clone, Copy)]
pub enum Command {
    Keep,
    Stream,
    Configure,
    Log,
    Check,
    Head,
    Upgrade,
}

impl Command {
    /// The command of this name.
    pub fn of(name: &str) -> Option<Command> {
        match name {
            "keep" => Some(Command::Keep),
            "stream" => Some(Command::Stream),
            "configure" => Some(Command::Configure),
            "log" => Some(Command::Log),
            "check" => Some(Command::Check),
            "head" => Some(Command::Head),
            "upgrade" => Some(Command::Upgrade),
            _ => None,
        }
    }

    /// Does it by its arguments, and returns the exit status. `program` is the program's version, without a newline.
    ///
    /// # Errors
    ///
    /// `Usage` if there are other words or values, `NoMemory`, and what ends a command before it opens its store.
    pub fn done(
        self,
        rt: &HostRuntime,
        program: &'static str,
        arguments: &Arguments<'_>,
    ) -> Result<ExitCode, Fault<'static>>
        requires { IsLine program.now }
    {
        let status = match self {
            Command::Keep => keep::perform(rt, program, arguments)?,
            Command::Stream => stream::perform(rt, arguments)?,
            Command::Configure => configure::perform(rt, arguments)?,
            Command::Log => log::perform(rt, arguments)?,
            Command::Check => check::perform(rt, arguments)?,
            Command::Head => check::perform_head(rt, arguments)?,
            Command::Upgrade => upgrade::perform(rt, arguments)?,
        };
        Ok(ExitCode::from(status))
    }
}
