//! CDRs shared and compared.

use ocpi_json::Room;
use ocpi_json::objects::FromNodeIn;
use ocpi_types::{Cdr, Shared, same_cdr};
use std::alloc::Global;
use std::str::Lines;

fn read_cdr(alloc: Global, line: &str) -> Option<Shared<Cdr>> {
    let mut room = Room::new(alloc);
    let read = room.read(line.as_bytes()).ok()?;
    Shared::from_node_in(alloc, &read.value()).ok()
}

fn copy_of(alloc: Global, line: &str) -> Option<Shared<Cdr>> {
    match read_cdr(alloc, line) {
        Some(cdr) => cdr.share().ok(),
        None => None,
    }
}

fn credited(cdr: &Cdr) -> &str {
    match &cdr.credit {
        Some(id) => id.as_str(),
        None => "nothing",
    }
}

fn are_totals_written(rt: &HostRuntime, cdr: &Cdr) -> bool {
    let id = cdr.id.as_str();
    let cost = cdr.total_cost.get();
    let energy = cdr.total_energy.get();
    let time = cdr.total_time.get();
    println!(rt;
        "{id} costs {cost} for {energy} in {time} and credits {}",
        credited(cdr)
    )
    .is_ok()
}

fn is_compared(rt: &HostRuntime, first: &Cdr, other: &Cdr) -> bool {
    let word = if same_cdr(first, other) {
        "same"
    } else {
        "other"
    };
    println!(rt; "{word}").is_ok()
}

fn is_other_compared(rt: &HostRuntime, first: &Cdr, line: &str) -> bool {
    match copy_of(rt.alloc(), line) {
        Some(copy) => is_compared(rt, first, &copy),
        None => false,
    }
}

fn are_others_compared(rt: &HostRuntime, first: &Cdr, lines: Lines<'_>) -> bool {
    for line in lines {
        if !is_other_compared(rt, first, line) {
            return false;
        }
    }
    true
}

/// Whether all lines are CDRs that could be copied.
pub(crate) fn are_cdrs_copied(rt: &HostRuntime, text: &str) -> bool {
    let mut lines = text.lines();
    match copy_of(rt.alloc(), lines.next().unwrap_or("")) {
        Some(first) => are_totals_written(rt, &first) && are_others_compared(rt, &first, lines),
        None => false,
    }
}
