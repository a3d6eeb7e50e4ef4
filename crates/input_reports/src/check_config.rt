//! What is in force in a configuration, which of its members are passed over, and of what it is warned.

ghost use Rattle.std.specs.Prelude.{◌≡◌, ◌≢◌, ◌↔◌, []};

mod alike;
mod failing;
mod in_force;
mod near;
mod no_json;
mod objects;
mod offset;
mod passed_over;
mod report;
mod spelled;
mod warning;
mod warnings;

use command_line::Fault;
use report::{Report, report_of};
use std::io::{self, ErrorKind};
use std::process::ExitCode;

// The exit status of a configuration that is read.
fn status(passed_over: &str, warnings: &str) -> u8
    ensures nothing_told { (result ≡ 0) ↔ (passed_over.now ≡ []) × (warnings.now ≡ []) }
    ensures told { result ≢ 0 → result ≡ 3 }
{
    let is_silent = passed_over.is_empty() && warnings.is_empty();
    if is_silent { 0 } else { 3 }
}

fn print(rt: &HostRuntime, report: &Report) -> io::Result<u8> {
    match report {
        Report::Read {
            in_force,
            passed_over,
            warnings,
        } => {
            print!(rt; "{in_force}{passed_over}{warnings}")?;
            Ok(status(passed_over.as_str(), warnings.as_str()))
        }
        Report::AtFault {
            failing,
            passed_over,
        } => {
            print!(rt; "{passed_over}")?;
            eprintln!(rt; "clear: {failing}")?;
            Ok(1)
        }
    }
}

fn print_report(rt: &HostRuntime, bytes: &[u8]) -> Result<u8, Fault<'static>> {
    let report = report_of(rt.alloc(), bytes)?;
    match print(rt, &report) {
        Ok(status) => Ok(status),
        // the reader of the output has gone
        Err(error) if error.kind() == ErrorKind::BrokenPipe => Ok(1),
        Err(_) => Err(Fault::CannotWrite),
    }
}

/// Tells of the configuration in these bytes, and gives the exit status: 3 if members are passed over or there is a warning, and 1 if a
/// member is at fault, which is told on standard error.
///
/// # Errors
///
/// `CannotWrite`, or the fault that ends the command before it writes anything on standard output.
pub fn tell_config(rt: &HostRuntime, bytes: &[u8]) -> Result<ExitCode, Fault<'static>> {
    Ok(ExitCode::from(print_report(rt, bytes)?))
}
