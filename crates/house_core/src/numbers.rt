//! The numbers of the book and of the account that a command looks into.

ghost use Rattle.std.specs.Prelude.{◌≡◌};
ghost use Rattle.period_order.specs.Kept.{account_number, book_number};

use cdr_checks::Command;
use ocpi_types::Config;
use period_order::{operator_number, provider_number};

/// The number of the operator whose book the command looks into.
pub fn book_number(config: &Config, command: &Command) -> Option<usize>
    ensures { result ≡ book_number config.now command.now }
{
    let operator = command.operator()?;
    Some(operator_number(config, &operator))
}

/// The number of the provider whose account the command looks into.
pub fn account_number(config: &Config, command: &Command) -> Option<usize>
    ensures { result ≡ account_number config.now command.now }
{
    let provider = command.provider()?;
    Some(provider_number(config, &provider))
}
