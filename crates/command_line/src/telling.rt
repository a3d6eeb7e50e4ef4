//! The line that tells what ends a command early.

ghost use Rattle.std.specs.Prelude.{◌≡◌, ◌++◌, codes};
ghost use Rattle.command_line.specs.Fault.{IsTold, fault_line, fault_text, file_line, line_of};
ghost use Rattle.command_line.specs.Inner.Parts.{text_of};

use crate::fault::Fault;
use itoa::Buffer;
use request_lines::{Sink, write_all};
use std::io::{self, Eprint, ErrorKind};

/// A fault's text in five parts.
struct FaultText<'a> {
    head: &'a str,
    first: &'a str,
    joint: &'a str,
    second: &'a str,
    tail: &'a str,
}

// The buffers take the digits of the numbers in the text.
fn text_in<'a, 'b>(fault: &Fault<'a>, digits: &'b mut Buffer, more: &'b mut Buffer) -> FaultText<'b>
where
    'a: 'b,
    ensures { result.head.now ++ (result.first.now ++ (result.joint.now ++ (result.second.now ++ result.tail.now))) ≡ fault_text fault.now }
{
    let (head, first, joint, second, tail) = match *fault {
        Fault::Usage => ("usage", "", "", "", "\n"),
        Fault::ConfigSyntax => ("config: syntax", "", "", "", "\n"),
        Fault::ConfigMember { name } => ("config: ", name.key(), "", "", "\n"),
        Fault::ConfigTooLong => ("longer than 1048576 bytes", "", "", "", "\n"),
        Fault::ConfigNoJson { line, column } => (
            "line ",
            digits.format(line),
            " column ",
            more.format(column),
            ": no JSON\n",
        ),
        Fault::CannotRead { path } => ("cannot read ", path, "", "", "\n"),
        Fault::CannotReadInput => ("cannot read -", "", "", "", "\n"),
        Fault::CannotWrite => ("cannot write", "", "", "", "\n"),
        Fault::EarlierStatements { folder } => (
            "statements of an earlier run in ",
            folder,
            "",
            "",
            "\n",
        ),
        Fault::LineTooLong { line } => ("line ", digits.format(line), "", "", " is too long\n"),
        Fault::ScheduleLine { line } => ("schedule: line ", digits.format(line), "", "", "\n"),
        Fault::FinishMissingPass => ("finish: missing pass", "", "", "", "\n"),
        Fault::FinishTorn { entry } => ("finish: torn at ", digits.format(entry), "", "", "\n"),
        Fault::NoMemory => ("no memory", "", "", "", "\n"),
    };
    FaultText {
        head,
        first,
        joint,
        second,
        tail,
    }
}

fn tell_parts<F: Sink>(faults: &mut F, parts: &[&str])
    ensures { IsTold F.writing faults.old (text_of parts.now) faults.new }
{
    for part in parts {
        if write_all(faults, part.as_bytes()).is_err() {
            return;
        }
    }
}

fn tell_text<'a, F: Sink>(faults: &mut F, program: &'a str, number: &'a str, text: FaultText<'a>)
    ensures { IsTold F.writing faults.old (program.entry.now ++ (number.entry.now ++ (codes ": " ++ (text.entry.head.now ++ (text.entry.first.now ++ (text.entry.joint.now ++ (text.entry.second.now ++ text.entry.tail.now))))))) faults.new }
{
    let FaultText {
        head,
        first,
        joint,
        second,
        tail,
    } = text;
    tell_parts(
        faults,
        &[program, number, ": ", head, first, joint, second, tail],
    );
}

/// Tells the fault in one line that begins with the program's name, without taking memory. If the sink fails, it has the line's first
/// bytes.
pub fn tell_as<F: Sink>(faults: &mut F, program: &str, fault: &Fault<'_>)
    ensures { IsTold F.writing faults.old (line_of program.now fault.now) faults.new }
{
    let mut first = Buffer::new();
    let mut second = Buffer::new();
    tell_text(faults, program, "", text_in(fault, &mut first, &mut second));
}

/// Tells the fault as the program `clear` does.
pub fn tell<F: Sink>(faults: &mut F, fault: &Fault<'_>)
    ensures { IsTold F.writing faults.old (fault_line fault.now) faults.new }
{
    tell_as(faults, "clear", fault);
}

/// Tells the fault of the file of this number, in the same way.
pub fn tell_of_file<F: Sink>(faults: &mut F, number: u64, fault: &Fault<'_>)
    ensures { IsTold F.writing faults.old (file_line number (fault_text fault.now)) faults.new }
{
    let mut digits = Buffer::new();
    let mut first = Buffer::new();
    let mut second = Buffer::new();
    tell_text(
        faults,
        "clear: file ",
        digits.format(number),
        text_in(fault, &mut first, &mut second),
    );
}

/// Prints on standard error that the system does not read the file of this path, or standard input for `-`, and why. Returns the exit
/// status.
pub fn tell_unread_file<R: Eprint>(rt: &R, path: &str, cause: io::Error) -> u8
    ensures { result ≡ 1 }
{
    let _ = match cause.kind() {
        ErrorKind::OutOfMemory => eprintln!(rt; "clear: no memory"),
        _ => eprintln!(rt; "clear: cannot read {path}: {cause}"),
    };
    1
}
