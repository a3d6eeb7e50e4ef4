//! Examples of what `ocpi_json` makes public, each a row that tells whether it is as expected.

mod lines;
mod rows;
mod texts;

use crate::check_fault::CheckFault;
use command_line::Fault;
use rows::Rows;
use std::alloc::Global;
use std::io;

fn tell_all(rows: &mut Rows<'_>, alloc: Global) -> io::Result<()> {
    lines::tell(rows, alloc)?;
    texts::tell(rows, alloc)
}

/// Tells the rows. It is a fault if one is not as expected.
pub fn tell_rows(rt: &HostRuntime) -> Result<(), CheckFault<'static>> {
    let mut rows = Rows::new(rt);
    match tell_all(&mut rows, rt.alloc()) {
        Ok(()) if rows.are_as_expected() => Ok(()),
        Ok(()) => Err(CheckFault::NotAsExpected),
        Err(_) => Err(CheckFault::from(Fault::CannotWrite)),
    }
}
