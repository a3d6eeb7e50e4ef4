//! Lines read twice: as they stand, and their marked texts by `serde_json`. It is written how many lines were read alike.

mod comparing;
mod keys;
mod marks;

use crate::check_fault::CheckFault;
use command_line::Fault;
use comparing::{Comparison, compare};
use ocpi_json::{ReadFault, Room};
use std::alloc::Global;
use std::io::{self, Read};

fn without_newline(line: &[u8]) -> &[u8] {
    match line.split_last() {
        Some((last, rest)) if *last == b'\n' => rest,
        _ => line,
    }
}

fn comparisons(alloc: Global, input: &[u8]) -> Result<Vec<Comparison>, ReadFault> {
    let mut room = Room::new(alloc);
    let mut found = Vec::new(alloc);
    for line in input.split_inclusive(|byte| *byte == b'\n') {
        found.push(compare(alloc, &mut room, without_newline(line))?)?;
    }
    Ok(found)
}

fn count(found: &[Comparison], wanted: Comparison) -> usize {
    found.iter().filter(|one| **one == wanted).count()
}

fn write_counts(rt: &HostRuntime, found: &[Comparison]) -> io::Result<()> {
    println!(rt; "lines: {}", found.len())?;
    println!(rt; "read by both: {}", count(found, Comparison::Read))?;
    println!(rt; "refused by both: {}", count(found, Comparison::Refused))?;
    println!(rt;
        "refused for a key that was replaced: {}",
        count(found, Comparison::Replaced)
    )?;
    println!(rt; "different: {}", count(found, Comparison::Different))
}

fn compared<R: Read + Drop>(alloc: Global, mut reader: R) -> Option<Vec<Comparison>> {
    let mut bytes = Vec::new(alloc);
    match reader.read_to_end(&mut bytes) {
        Ok(_) => comparisons(alloc, bytes.as_slice()).ok(),
        Err(_) => None,
    }
}

fn told(rt: &HostRuntime, found: &[Comparison]) -> Result<(), CheckFault<'static>> {
    if write_counts(rt, found).is_err() {
        return Err(CheckFault::from(Fault::CannotWrite));
    }
    if count(found, Comparison::Different) > 0 {
        return Err(CheckFault::ReadDifferently);
    }
    Ok(())
}

/// Reads each line of the reader in both ways.
pub fn compare_lines<R: Read + Drop>(
    rt: &HostRuntime,
    reader: R,
) -> Result<(), CheckFault<'static>> {
    match compared(rt.alloc(), reader) {
        Some(found) => told(rt, found.as_slice()),
        None => Err(CheckFault::NotCompared),
    }
}
