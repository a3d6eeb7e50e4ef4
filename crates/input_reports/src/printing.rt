//! What a CDR of standard input costs, on standard output.

use crate::explain_cost::explain_text;
use crate::rate::rate_text;
use crate::rating_fault::RatingFault;
use ocpi_types::Zone;
use std::io::{self, Read, Write};

fn given_text(rt: &HostRuntime) -> io::Result<Vec<u8>> {
    let mut text = Vec::new(rt.alloc());
    rt.stdin().read_to_end(&mut text)?;
    Ok(text)
}

fn told(rt: &HostRuntime, fault: RatingFault) -> io::Result<u8> {
    let (kind, member) = fault.words();
    eprintln!(rt; "clear: {kind}{member}")?;
    Ok(1)
}

/// Prints what the CDR costs by the zone of its operator, and gives the exit status: 1 where it has no amount.
pub fn print_amount(rt: &HostRuntime, zone: &Zone) -> io::Result<u8> {
    let text = given_text(rt)?;
    match rate_text(rt.alloc(), text.as_slice(), zone) {
        Ok(amount) => {
            println!(rt; "{amount}")?;
            Ok(0)
        }
        Err(fault) => told(rt, fault),
    }
}

/// Prints the same row by row, as CSV.
pub fn print_explanation(rt: &HostRuntime, zone: &Zone) -> io::Result<u8> {
    let text = given_text(rt)?;
    match explain_text(rt.alloc(), text.as_slice(), zone) {
        Ok(explanation) => {
            rt.stdout().write_all(explanation.as_slice())?;
            Ok(0)
        }
        Err(fault) => told(rt, fault),
    }
}
