//! Copies of what was read, to show that there are copies where there is memory. The input is CDRs, one a line, or a
//! configuration in the first line and requests in the others. Of CDRs is written what the copy of the first one holds, and
//! of each other one whether its copy has the same content. Of requests are written copies of the answers to copies of their
//! commands, once they and their events could be copied too.

mod cdrs;
mod requests;

use crate::check_fault::CheckFault;
use cdrs::are_cdrs_copied;
use requests::are_requests_copied;
use std::io::Read;

fn is_all_copied(rt: &HostRuntime, text: &str) -> bool {
    are_cdrs_copied(rt, text) || are_requests_copied(rt, text)
}

/// Copies what the reader has.
pub fn copy_input<R: Read + Drop>(
    rt: &HostRuntime,
    mut reader: R,
) -> Result<(), CheckFault<'static>> {
    let mut text = String::new(rt.alloc());
    match reader.read_to_string(&mut text) {
        Ok(_) if is_all_copied(rt, text.as_str()) => Ok(()),
        _ => Err(CheckFault::NoCopy),
    }
}
