//! The commands of a file's lines, as a house admits them.

use cdr_checks::Command;
use request_lines::{LineRoom, command_of};
use shared_house::{Configured, House, Names, Part};
use std::alloc::{AllocError, Global};
use std::io::{BufRead, BufReader};
use std::marker::{Model, PhantomData};
use std::{fs, io};

/// A command that the house's configuration admits.
#[derive(Drop)]
pub struct Admitted<N: Names> {
    pub command: Command,
    pub of: PhantomData<N>,
}

impl<N: Names> Model for Admitted<N> {
    ghost use Rattle.cdr_checks.specs.Admission.{IsAdmitted};
    ghost use Rattle.cdr_checks.specs.declared.request.Command.{Command};

    ghost Value = { Command };

    ghost view = { λ admitted. admitted.command };

    ghost invariant = { λ admitted. IsAdmitted N.BookEntries.config admitted.command };
}

fn admitted_of<N: Names>(
    alloc: Global,
    room: &mut LineRoom,
    house: &House<N>,
    line: &[u8],
) -> Option<Admitted<N>> {
    match command_of(alloc, room, house.config(), line) {
        Ok(command) => Some(Admitted {
            command,
            of: PhantomData,
        }),
        Err(_) => None,
    }
}

// Adds the command of the line; a line without one is passed over.
fn add_command<N: Names>(
    alloc: Global,
    room: &mut LineRoom,
    house: &House<N>,
    line: &[u8],
    commands: &mut Vec<Admitted<N>>,
) -> Result<(), AllocError> {
    match admitted_of(alloc, room, house, line) {
        Some(admitted) => Ok(commands.push(admitted)?),
        None => Ok(()),
    }
}

// Adds the command of the reader's next line, if there is one more.
fn add_next<N: Names, R: BufRead>(
    alloc: Global,
    room: &mut LineRoom,
    house: &House<N>,
    reader: &mut R,
    line: &mut Vec<u8>,
    commands: &mut Vec<Admitted<N>>,
) -> io::Result<bool> {
    line.clear();
    if reader.read_until(b'\n', line)? == 0 {
        return Ok(false);
    }
    add_command(alloc, room, house, line.as_slice(), commands)?;
    Ok(true)
}

// Adds the commands of the reader's lines, each line in turn in the same place.
fn add_commands<N: Names, R: BufRead>(
    alloc: Global,
    house: &House<N>,
    reader: &mut R,
    line: &mut Vec<u8>,
    commands: &mut Vec<Admitted<N>>,
) -> io::Result<()> {
    let mut room = LineRoom::new(alloc);
    for _number in 0..u64::MAX {
        if !add_next(alloc, &mut room, house, reader, line, commands)? {
            break;
        }
    }
    Ok(())
}

/// The commands of the lines of the file at the path.
pub fn commands_of<N: Names>(
    rt: &HostRuntime,
    house: &House<N>,
    path: &str,
) -> io::Result<Vec<Admitted<N>>> {
    let mut reader = BufReader::new(rt.alloc(), fs::open(rt, path)?)?;
    let mut line = Vec::new(rt.alloc());
    let mut commands = Vec::new(rt.alloc());
    match add_commands(rt.alloc(), house, &mut reader, &mut line, &mut commands) {
        Ok(()) => Ok(commands),
        Err(fault) => Err(fault),
    }
}
