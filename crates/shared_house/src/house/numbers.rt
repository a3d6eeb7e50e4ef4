//! The numbers of the book and of the account that a command looks into.

ghost use Rattle.std.specs.Prelude.{◌≡◌, ◌<◌, is_some, length, IfSome};
ghost use Rattle.cdr_checks.specs.Parties.{HasParties, operator_of_command, provider_of_command};
ghost use Rattle.period_order.specs.Kept.{account_number, book_number};

use cdr_checks::Command;
use ocpi_types::Config;
use period_order::{operator_number, provider_number};

/// The number of the operator whose book the command looks into.
pub fn book_number(config: &Config, command: &Command) -> Option<usize>
    requires { HasParties config.now command.now }
    ensures number { result ≡ book_number config.now command.now }
    ensures is { is_some result ≡ is_some (operator_of_command command.now) }
    ensures within { IfSome result (λ number. number < length config.now.operators) }
{
    let operator = command.operator()?;
    Some(operator_number(config, &operator))
}

/// The number of the provider whose account the command looks into.
pub fn account_number(config: &Config, command: &Command) -> Option<usize>
    requires { HasParties config.now command.now }
    ensures number { result ≡ account_number config.now command.now }
    ensures is { is_some result ≡ is_some (provider_of_command command.now) }
    ensures within { IfSome result (λ number. number < length config.now.providers) }
{
    let provider = command.provider()?;
    Some(provider_number(config, &provider))
}
