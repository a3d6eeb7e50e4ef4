//! The CDRs of one operator rated again, each in a record with what was booked: which are not rated at that. Standard input has one
//! record a line. A line that is no record is told on standard error by its number; the other lines are rated all the same.

mod line;

use crate::rating_fault::RatingFault;
use line::read_record;
use ocpi_json::Room;
use re_rating::{Difference, Record};
use std::io::{self, BufRead, ErrorKind};

/// The records that were read, each with the number of its line.
#[derive(Drop)]
pub struct Records {
    records: Vec<Record>,
    lines: Vec<u64>,
    has_bad_line: bool,
}

fn tell_fault(rt: &HostRuntime, number: u64, fault: RatingFault) -> io::Result<()> {
    let (kind, member) = match fault {
        RatingFault::NoMemory => return Err(io::Error::from(ErrorKind::OutOfMemory)),
        other => other.words(),
    };
    eprintln!(rt; "line {number}: {kind}{member}")
}

impl Records {
    // Keeps the record of a line, or tells why it is none.
    fn keep(
        &mut self,
        rt: &HostRuntime,
        room: &mut Room,
        number: u64,
        line: &[u8],
    ) -> io::Result<()> {
        match read_record(rt.alloc(), room, line) {
            Ok(found) => {
                self.records.push(found)?;
                self.lines.push(number)?;
                Ok(())
            }
            Err(fault) => {
                self.has_bad_line = true;
                tell_fault(rt, number, fault)
            }
        }
    }

    /// Those of standard input. A line that is no record is told on standard error.
    pub fn read(rt: &HostRuntime) -> io::Result<Records> {
        let mut input = Records {
            records: Vec::new(rt.alloc()),
            lines: Vec::new(rt.alloc()),
            has_bad_line: false,
        };
        let mut reader = rt.stdin().lock();
        let mut room = Room::new(rt.alloc());
        let mut line = Vec::new(rt.alloc());
        for number in 1..u64::MAX {
            line.clear();
            if reader.read_until(b'\n', &mut line)? == 0 {
                break;
            }
            let line = line.as_slice();
            input.keep(
                rt,
                &mut room,
                number,
                line.strip_suffix(b"\n").unwrap_or(line),
            )?;
        }
        Ok(input)
    }

    // The number of the line of the record at a place.
    fn line_at(&self, place: u64) -> Option<u64> {
        self.lines.as_slice().get(place as usize).copied()
    }

    fn tell(&self, rt: &HostRuntime, difference: &Difference) -> io::Result<()> {
        let number = self.line_at(difference.index).unwrap_or(0);
        let booked = difference.booked;
        match difference.rated {
            Some(rated) => println!(rt; "line {number}: booked {booked}, rated {rated}"),
            None => println!(rt; "line {number}: booked {booked}, not rated"),
        }
    }

    /// The records, in the order of their lines.
    pub fn as_slice(&self) -> &[Record] {
        self.records.as_slice()
    }

    /// Tells the differences on standard output, by the numbers of the lines, and gives the exit status: 1 where a line is no record.
    pub fn tell_all(&self, rt: &HostRuntime, differences: &[Difference]) -> io::Result<u8> {
        for difference in differences {
            self.tell(rt, difference)?;
        }
        Ok(self.has_bad_line as u8)
    }
}
