//! What is told of a configuration.

use super::failing::failing_line;
use super::in_force::in_force;
use super::no_json::{Spot, spot_of};
use super::objects::objects_in;
use super::passed_over::passed_over;
use super::warnings::warning_lines;
use command_line::Fault;
use ocpi_json::{MemberFault, Node, ReadFault, Room};
use ocpi_types::{Config, ConfigFault};
use std::alloc::{AllocError, Global};

/// How many bytes a configuration has at most.
const MOST_BYTES: usize = 1_048_576;

/// What is told of a configuration.
#[derive(Drop)]
pub enum Report {
    /// It is read: what is in force, what is passed over, and of what it is warned.
    Read {
        in_force: String,
        passed_over: String,
        warnings: String,
    },
    /// It has a fault: what is said of the member at fault, and what is passed over.
    AtFault {
        failing: String,
        passed_over: String,
    },
}

fn no_json(alloc: Global, bytes: &[u8]) -> Fault<'static> {
    if MOST_BYTES < bytes.len() {
        return Fault::ConfigTooLong;
    }
    match spot_of(alloc, bytes) {
        Ok(Spot { line, column }) => Fault::ConfigNoJson { line, column },
        Err(_) => Fault::NoMemory,
    }
}

fn of_read(alloc: Global, whole: &Node, config: &Config) -> Result<Report, AllocError> {
    let objects = objects_in(alloc, whole)?;
    Ok(Report::Read {
        in_force: in_force(alloc, whole, config)?,
        passed_over: passed_over(alloc, whole, objects.as_slice())?,
        warnings: warning_lines(alloc, config)?,
    })
}

fn of_fault(alloc: Global, whole: Node, fault: &MemberFault) -> Result<Report, AllocError> {
    let objects = objects_in(alloc, &whole)?;
    let passed_over = passed_over(alloc, &whole, objects.as_slice())?;
    Ok(Report::AtFault {
        failing: failing_line(alloc, whole, fault)?,
        passed_over,
    })
}

// What is told of the configuration that these bytes say, which are the value `whole`.
fn of_value(alloc: Global, bytes: &[u8], whole: Node) -> Result<Report, Fault<'static>> {
    match Config::read(alloc, bytes) {
        Ok(config) => Ok(of_read(alloc, &whole, &config)?),
        Err(ConfigFault::Member(fault)) => Ok(of_fault(alloc, whole, &fault)?),
        Err(ConfigFault::Syntax) => Err(no_json(alloc, bytes)),
        Err(ConfigFault::NoMemory) => Err(Fault::NoMemory),
    }
}

/// What is told of the configuration that a file of these bytes says.
pub fn report_of(alloc: Global, bytes: &[u8]) -> Result<Report, Fault<'static>> {
    let mut room = Room::new(alloc);
    match room.read(bytes) {
        Ok(line) => of_value(alloc, bytes, line.value()),
        Err(ReadFault::Syntax) => Err(no_json(alloc, bytes)),
        Err(ReadFault::NoMemory) => Err(Fault::NoMemory),
    }
}
