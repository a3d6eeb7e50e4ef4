//! Lines read as JSON: RFC 8259 says what each line is.

ghost use Rattle.std.specs.Prelude.{◌^◌, ◌<◌};

use super::rows::Rows;
use ocpi_json::{ReadFault, Room};
use std::alloc::{AllocError, Global};
use std::io;

// Objects, and the number that their member `a` is, as it is written.
fn numbers() -> [(&'static str, &'static [u8], &'static str); 5] {
    [
        ("white space", b" \t\r\n{ \"a\" : 1 }  ", "1"),
        ("an exponent", b"{\"a\":0.10E-7}", "0.10E-7"),
        ("the last of equal keys", b"{\"a\":1,\"a\":2}", "2"),
        ("equal keys apart", b"{\"a\":1,\"b\":{},\"a\":-0}", "-0"),
        ("an escaped key", b"{\"\\u0061\":\"n1\",\"a\":1.50}", "1.50"),
    ]
}

fn is_number(room: &mut Room, line: &[u8], number: &str) -> bool {
    match room.read(line) {
        Ok(read) => match read.value().get("a") {
            Some(member) => member.as_number() == Some(number),
            None => false,
        },
        Err(_) => false,
    }
}

fn tell_numbers(rows: &mut Rows<'_>, room: &mut Room) -> io::Result<()> {
    for (what, line, number) in numbers() {
        rows.tell("number", what, is_number(room, line, number))?;
    }
    Ok(())
}

// Lines, and the text that they are.
fn texts() -> [(&'static str, &'static [u8], &'static str); 3] {
    [
        ("escapes", b"\"\\u0041\\n\"", "A\n"),
        ("a letter and a digit", b"\"s1\"", "s1"),
        ("two surrogates", b"\"\\ud83d\\ude00\"", "\u{1f600}"),
    ]
}

fn is_text(room: &mut Room, line: &[u8], text: &str) -> bool {
    match room.read(line) {
        Ok(read) => read.value().as_str() == Some(text),
        Err(_) => false,
    }
}

fn tell_texts(rows: &mut Rows<'_>, room: &mut Room) -> io::Result<()> {
    for (what, line, text) in texts() {
        rows.tell("text", what, is_text(room, line, text))?;
    }
    Ok(())
}

fn no_json() -> [(&'static str, &'static [u8]); 6] {
    [
        ("a lone surrogate", b"\"\\ud800\""),
        ("a control character", b"\"a\x01b\""),
        ("a byte of no UTF-8", b"\"\xff\""),
        ("a number for a key", b"{1:2}"),
        (
            "such a key hidden by a later member",
            b"{\"a\":{1:2},\"a\":3}",
        ),
        ("an empty line", b""),
    ]
}

// Whether the line is read. For want of memory that is not known.
fn is_read(room: &mut Room, line: &[u8]) -> Option<bool> {
    match room.read(line) {
        Ok(_) => Some(true),
        Err(ReadFault::Syntax) => Some(false),
        Err(ReadFault::NoMemory) => None,
    }
}

fn tell_refused(rows: &mut Rows<'_>, room: &mut Room) -> io::Result<()> {
    for (what, line) in no_json() {
        rows.tell("refused", what, is_read(room, line) == Some(false))?;
    }
    Ok(())
}

fn lists_in_one_another(alloc: Global, levels: usize) -> Result<Vec<u8>, AllocError>
    requires { levels < 2 ^ 32 }
{
    let mut line = Vec::new(alloc);
    line.resize(levels, b'[')?;
    line.resize(2 * levels, b']')?;
    Ok(line)
}

fn is_read_at(alloc: Global, levels: usize) -> Option<bool>
    requires { levels < 2 ^ 32 }
{
    let line = lists_in_one_another(alloc, levels).ok()?;
    is_read(&mut Room::new(alloc), line.as_slice())
}

fn tell_levels(rows: &mut Rows<'_>, alloc: Global) -> io::Result<()> {
    rows.tell(
        "levels",
        "127 are read",
        is_read_at(alloc, 127) == Some(true),
    )?;
    rows.tell(
        "levels",
        "128 are refused",
        is_read_at(alloc, 128) == Some(false),
    )
}

/// Tells how lines are read.
pub fn tell(rows: &mut Rows<'_>, alloc: Global) -> io::Result<()> {
    let mut room = Room::new(alloc);
    tell_numbers(rows, &mut room)?;
    tell_texts(rows, &mut room)?;
    tell_refused(rows, &mut room)?;
    tell_levels(rows, alloc)
}
