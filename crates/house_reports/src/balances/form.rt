//! The options of the command line.

ghost use Rattle.std.specs.Prelude.{◌≡◌, ◌↔◌, false, is_some};
ghost use Rattle.command_line.specs.Arguments.{given_option, plain_arguments};

use command_line::{Arguments, CommandOption};

/// How rows are printed.
#[derive(Clone, Copy)]
pub enum Form {
    /// As comma-separated values.
    Csv,
    /// As a table for a terminal.
    Table,
}

/// Returns the form that the arguments ask for.
pub fn form_of(arguments: &Arguments<'_>) -> Form
    ensures { (result ≡ Form.Csv) ↔ (is_some (given_option CommandOption.Table (plain_arguments arguments.now)) ≡ false) }
{
    if arguments.has(CommandOption::Table) {
        Form::Table
    } else {
        Form::Csv
    }
}
