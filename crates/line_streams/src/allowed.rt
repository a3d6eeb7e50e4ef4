//! What a line asks for, if the configuration in force allows it.

ghost use Rattle.std.specs.Prelude.{◌≡◌, IfOk};
ghost use Rattle.line_streams.specs.Inner.Allowed.{IsAllowed, allow};

use crate::asked::Asked;
use cdr_checks::Command;
use ocpi_types::{Config, Refusal};
use request_lines::admitted;

/// The command of a request that is admitted, or the configuration that a hub asks for.
#[derive(Drop)]
pub enum Allowed {
    Command(Command),
    Change(Config),
}

/// Returns what is asked for, if the request is admitted or a hub asks for the change.
///
/// # Errors
///
/// The refusal, which depends on the line and the configuration alone.
pub fn allow(config: &Config, asked: Asked) -> Result<Allowed, Refusal>
    ensures allow { result ≡ allow config.now asked }
    ensures is_allowed { IfOk result (IsAllowed config.now) }
{
    match asked {
        Asked::Request(request) => match admitted(config, request) {
            Ok(command) => Ok(Allowed::Command(command)),
            Err(refusal) => Err(refusal),
        },
        Asked::Change(change) => {
            if config.is_hub(&change.platform) {
                Ok(Allowed::Change(change.config))
            } else {
                Err(Refusal::NotYours)
            }
        }
    }
}
