//! Lines that post CDRs: how fast they are cut, read as JSON, and read as CDRs.

use super::asked::Asked;
use super::rating::cdr_text;
use marked_lines::marking::mark;
use ocpi_json::name::Name;
use ocpi_json::objects::FromNodeIn;
use ocpi_json::{Node, Room, fields};
use ocpi_types::Cdr;
use request_lines::{Answerer, Count, Device, ScriptFault, Source, run_lines};
use serde_json::Value;
use std::alloc::{AllocError, Global};
use std::time::{CpuClock, Duration};
use std::{fs, io};

// How many lines there are where no file is given.
const FEW_LINES: usize = 20;

// How many charging periods each of them has.
const FEW_PERIODS: usize = 25;

#[derive(Clone, Copy, PartialEq, Eq)]
enum Part {
    Cut,
    Marked,
    Read,
    Cdr,
}

impl Part {
    fn name(self) -> &'static str {
        match self {
            Part::Cut => "cut",
            Part::Marked => "marked",
            Part::Read => "read",
            Part::Cdr => "cdr",
        }
    }
}

/// Answers each line with nothing, and adds up what it finds in them.
#[derive(Drop)]
struct Finder {
    part: Part,
    room: Room,
    sum: u64,
}

// The CDR of a line, if it has one.
fn cdr_node<'a>(line: &Node<'a>) -> Option<Node<'a>> {
    fields::object(line, Name::Cdr).ok()
}

// Whether the marked text of a line is read as an object, by `serde_json`.
fn is_marked_object(alloc: Global, line: &[u8]) -> bool {
    let Ok(text) = mark(alloc, line) else {
        return false;
    };
    match Value::from_slice(alloc, text.as_slice()) {
        Ok(value) => value.is_object(),
        Err(_) => false,
    }
}

fn has_cdr(room: &mut Room, line: &[u8]) -> bool {
    match room.read(line) {
        Ok(read) => cdr_node(&read.value()).is_some(),
        Err(_) => false,
    }
}

fn periods_of(alloc: Global, line: &Node) -> Option<usize> {
    let cdr = Cdr::from_node_in(alloc, &cdr_node(line)?).ok()?;
    Some(cdr.charging_periods.as_slice().len())
}

fn periods(alloc: Global, room: &mut Room, line: &[u8]) -> usize {
    match room.read(line) {
        Ok(read) => periods_of(alloc, &read.value()).unwrap_or(0),
        Err(_) => 0,
    }
}

impl Finder {
    // Of a line that is cut its length, of one that is read whether it is an object or has a CDR, and of a CDR its
    // charging periods.
    fn find(&mut self, alloc: Global, line: &[u8]) -> usize {
        match self.part {
            Part::Cut => line.len(),
            Part::Marked => is_marked_object(alloc, line) as usize,
            Part::Read => has_cdr(&mut self.room, line) as usize,
            Part::Cdr => periods(alloc, &mut self.room, line),
        }
    }
}

impl Answerer for Finder {
    ghost use Rattle.std.specs.Prelude.{◌≡◌, ◌++◌, [], List, ℕ};
    ghost use Rattle.std.proofs.Common.{ap, ◌∙◌, refl};

    ghost rule = { record { answers = λ a lines text b. text ≡ []; gives_up = λ a line b. Unit {0} } };

    ghost answers_none = { λ a. refl };

    ghost answers_more = { λ a b c ls ms t u h k. ap (λ (x : List ℕ). x ++ u) h ∙ k };

    fn answer(&mut self, alloc: Global, line: &[u8]) -> Result<Vec<u8>, AllocError> {
        let found = self.find(alloc, line);
        self.sum = self.sum.wrapping_add(found as u64);
        Ok(Vec::new(alloc))
    }
}

// What is found in the lines of a reader, and how many there are.
fn found<R: Source>(
    alloc: Global,
    part: Part,
    reader: &mut R,
) -> Result<(Count, u64), ScriptFault> {
    let mut finder = Finder {
        part,
        room: Room::new(alloc),
        sum: 0,
    };
    let mut writer = Device::new(Vec::new(alloc));
    let count = run_lines(alloc, reader, &mut writer, &mut finder)?;
    Ok((count, finder.sum))
}

// Tells what is found in the lines of a reader, and gives how many bytes there are.
fn tell<R: Source>(rt: &HostRuntime, part: Part, reader: &mut R) -> io::Result<u128> {
    match found(rt.alloc(), part, reader) {
        Ok((count, sum)) => {
            println!(rt;
                "lines {}: {} lines, {} bytes, {sum}",
                part.name(),
                count.lines,
                count.bytes
            )?;
            Ok(count.bytes)
        }
        Err(_) => {
            println!(rt; "lines {}: a fault", part.name())?;
            Ok(0)
        }
    }
}

fn lines_text(alloc: Global) -> Result<String, AllocError> {
    let mut text = String::new(alloc);
    for _ in 0..FEW_LINES {
        text.push_str(r#"{"platform":"cpo","do":"post","cdr":"#)?;
        text.push_str(cdr_text(alloc, FEW_PERIODS)?.as_str())?;
        text.push_str("}\n")?;
    }
    Ok(text)
}

fn tell_rate(rt: &HostRuntime, part: Part, bytes: u128, took: Duration) -> io::Result<()> {
    let micros = took.as_micros();
    let rate = if micros == 0 { 0 } else { bytes / micros };
    eprintln!(rt;
        "lines {}: {rate} MB/s, {} ms of processor time",
        part.name(),
        took.as_millis()
    )
}

// The lines of a file, with the rate on standard error.
fn tell_file(rt: &HostRuntime, part: Part, path: &str) -> io::Result<()> {
    let mut reader = Device::new(fs::open(rt, path)?);
    let before = rt.process_cpu_time()?;
    let bytes = tell(rt, part, &mut reader)?;
    let after = rt.process_cpu_time()?;
    tell_rate(rt, part, bytes, after.saturating_sub(before))
}

/// Cuts and reads the lines of the file that the third word names, or of a text of a few lines.
pub fn work(rt: &HostRuntime, asked: &Asked<'_>) -> io::Result<()> {
    let Ok(text) = lines_text(rt.alloc()) else {
        return println!(rt; "lines: no lines");
    };
    for part in [Part::Cut, Part::Marked, Part::Read, Part::Cdr] {
        if asked.names_part(part.name()) {
            match asked.file() {
                Some(path) => tell_file(rt, part, path)?,
                None => {
                    tell(rt, part, &mut Device::new(text.as_bytes()))?;
                }
            }
        }
    }
    Ok(())
}
