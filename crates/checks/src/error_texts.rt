//! The texts of the errors that the libraries make public, a row for each value. A refusal's text is compared with what its name, its
//! values' own functions and the numbers give.

mod refusals;

use crate::check_fault::CheckFault;
use command_line::Fault;
use ocpi_json::fields::FieldFault;
use ocpi_json::name::Name;
use ocpi_json::{Expected, MemberFault, ReadFault, Step};
use ocpi_types::{ConfigFault, Refusal};
use period_order::ResolveFault;
use plain_house::Refused;
use request_lines::{Failed, ScriptFault};
use shared_house::{CertifyFault, FinishFault};
use std::error::Error;
use std::io;

// A row for each error: its type and its text.
fn tell_each<E: Error>(rt: &HostRuntime, kind: &str, errors: &[E]) -> io::Result<()> {
    for error in errors {
        println!(rt; "{kind}: {error}")?;
    }
    Ok(())
}

fn volume() -> MemberFault {
    let fault = MemberFault::at(Step::Member(Name::Volume), Expected::Number);
    fault.seen_from(Step::item(Name::Dimensions, 2))
}

fn zone() -> MemberFault {
    let fault = MemberFault::at(Step::Member(Name::Zone), Expected::Zone);
    fault.seen_from(Step::item(Name::Operators, 1))
}

fn tell_reading(rt: &HostRuntime) -> io::Result<()> {
    tell_each(rt, "ReadFault", &[ReadFault::Syntax, ReadFault::NoMemory])?;
    tell_each(
        rt,
        "FieldFault",
        &[FieldFault::Field(volume()), FieldFault::NoMemory],
    )?;
    tell_each(
        rt,
        "ConfigFault",
        &[
            ConfigFault::Syntax,
            ConfigFault::Member(zone()),
            ConfigFault::NoMemory,
        ],
    )
}

fn tell_script(rt: &HostRuntime) -> io::Result<()> {
    tell_each(rt, "Failed", &[Failed])?;
    tell_each(
        rt,
        "ScriptFault",
        &[
            ScriptFault::Read,
            ScriptFault::Write { written: 7 },
            ScriptFault::NoMemory,
            ScriptFault::LineTooLong { line: 3 },
        ],
    )
}

fn tell_ends(rt: &HostRuntime) -> io::Result<()> {
    tell_each(
        rt,
        "FinishFault",
        &[
            FinishFault::MissingPass,
            FinishFault::Torn { entry: 7 },
            FinishFault::NoMemory,
        ],
    )?;
    tell_each(
        rt,
        "CertifyFault",
        &[CertifyFault::Torn { entry: 7 }, CertifyFault::NoMemory],
    )?;
    tell_each(
        rt,
        "ResolveFault",
        &[ResolveFault::Torn { entry: 7 }, ResolveFault::NoMemory],
    )
}

fn tell_refused(rt: &HostRuntime) -> io::Result<()> {
    tell_each(
        rt,
        "Refused",
        &[
            Refused {
                at: Some(1),
                refusal: Refusal::NotCurrent { current: 1 },
            },
            Refused {
                at: None,
                refusal: Refusal::Syntax,
            },
        ],
    )
}

fn tell_all(rt: &HostRuntime) -> io::Result<bool> {
    tell_reading(rt)?;
    tell_script(rt)?;
    tell_ends(rt)?;
    tell_refused(rt)?;
    refusals::tell(rt)
}

/// Tells the rows. It is a fault if a text differs.
pub fn tell_rows(rt: &HostRuntime) -> Result<(), CheckFault<'static>> {
    match tell_all(rt) {
        Ok(true) => Ok(()),
        Ok(false) => Err(CheckFault::NotAsExpected),
        Err(_) => Err(CheckFault::from(Fault::CannotWrite)),
    }
}
