//! The files of a run, and their answer files.

ghost use Rattle.std.specs.Prelude.{◌≡◌, ◌<◌, ◌≤◌, ◌+◌, ℕ, List, [], Some, IfErr, IfOk, OnErr, length, map, string_bytes, vec_capacity, vec_len};
ghost use Rattle.clear_cli.specs.Fault.{AreTold};
ghost use Rattle.clear_cli.specs.Folder.{IsUnmade, folder_words};
ghost use Rattle.clear_cli.specs.Inner.Making.{AreMade, IsMade};
ghost use Rattle.clear_cli.specs.Opening.{AreOpened, answers_name, given_file, unopened_line, unopened_lines};

use crate::folder::Folder;
use crate::schedule_text::WriteFault;
use arrayvec::ArrayString;
use command_line::{Fault, tell_of_file};
use itoa::Buffer;
use request_lines::{Sink, Source};
use std::alloc::{AllocError, Global};
use std::marker::Model;

/// The number of a file, from 1, and its path.
#[derive(Drop)]
pub struct Named {
    number: u64,
    path: String,
}

impl Model for Named {
    ghost use Rattle.std.specs.Prelude.{string_bytes};
    ghost use Rattle.clear_cli.specs.Opening.{PlainNamed};

    ghost Value = { PlainNamed };

    ghost view = { λ named. record { number = named.number; path = string_bytes named.path } };
}

impl Named {
    ghost use Rattle.std.specs.Prelude.{◌≡◌};

    pub fn number(&self) -> u64
        ensures { result ≡ self.now.number }
    {
        self.number
    }

    pub fn path(&self) -> &str
        ensures { result.now ≡ self.now.path }
    {
        self.path.as_str()
    }
}

/// The files that are answered, and the reader and the answer file of each.
#[derive(Drop)]
pub struct Opened<I: Source + Drop, V: Sink + Drop> {
    pub named: Vec<Named>,
    pub pairs: Vec<(I, V)>,
}

// Tells that a file could not be opened, if it could not.
fn tell_if_unopened<I: Source + Drop, F: Sink>(
    faults: &mut F,
    number: u64,
    path: &str,
    reader: &Option<I>,
)
    ensures { AreTold F.writing faults.old (unopened_line number path.now reader.now) faults.new }
{
    if reader.is_none() {
        tell_of_file(faults, number, &Fault::CannotRead { path });
    }
}

// Tells which files could not be opened.
fn tell_unopened<I: Source + Drop, F: Sink>(faults: &mut F, files: &[(String, Option<I>)])
    ensures { AreTold F.writing faults.old (unopened_lines 1 (map given_file files.now)) faults.new }
{
    let mut number = 0;
    for (path, reader) in files {
        number += 1;
        tell_if_unopened(faults, number, path.as_str(), reader);
    }
}

// The answer file of the file of this number.
fn make_answers<O: Folder>(folder: &mut O, number: u64) -> Result<O::File, WriteFault>
    ensures made { IfOk result (λ file. O.making.makes folder.old (answers_name number) file folder.new) }
    ensures unmade { IfErr result (λ fault. IsUnmade O.making (answers_name number) folder.old folder.new fault) }
{
    let mut digits = Buffer::new();
    let mut name: ArrayString<64> = ArrayString::new();
    name.push_str("answers-");
    name.push_str(digits.format(number));
    name.push_str(".jsonl");
    folder.make(name.as_str())
}

// No files, in lists that have places for so many.
fn with_places<I: Source + Drop, V: Sink + Drop>(
    alloc: Global,
    count: usize,
) -> Result<Opened<I, V>, AllocError>
    ensures empty { IfOk result (λ opened. (opened.named.items ≡ []) × (opened.pairs.items ≡ [])) }
    ensures places { IfOk result (λ opened. (count ≤ vec_capacity opened.named) × (count ≤ vec_capacity opened.pairs)) }
{
    Ok(Opened {
        named: Vec::with_capacity(alloc, count)?,
        pairs: Vec::with_capacity(alloc, count)?,
    })
}

// Adds a file to the others, with its answer file, or reports that it has none.
fn add_answered<I: Source + Drop, O: Folder, F: Sink>(
    opened: &mut Opened<I, O::File>,
    folder: &mut O,
    faults: &mut F,
    number: u64,
    path: String,
    reader: I,
)
    requires named { vec_len opened.old.named < vec_capacity opened.old.named }
    requires pairs { vec_len opened.old.pairs < vec_capacity opened.old.pairs }
    ensures added { IsMade (folder_words O.making O.File.writing) F.writing number (string_bytes path) (Some reader) folder.old folder.new opened.old.named.items opened.new.named.items opened.old.pairs.items opened.new.pairs.items faults.old faults.new }
    ensures places { (vec_capacity opened.new.named ≡ vec_capacity opened.old.named) × (vec_capacity opened.new.pairs ≡ vec_capacity opened.old.pairs) }
    ensures fewer { (vec_len opened.new.named ≤ vec_len opened.old.named + 1) × (vec_len opened.new.pairs ≤ vec_len opened.old.pairs + 1) }
    ensures even { vec_len opened.old.named ≡ vec_len opened.old.pairs → vec_len opened.new.named ≡ vec_len opened.new.pairs }
{
    match make_answers(folder, number) {
        Ok(answers) => {
            opened.named.push_reserved(Named { number, path });
            opened.pairs.push_reserved((reader, answers));
        }
        Err(fault) => tell_of_file(faults, number, &Fault::from(fault)),
    }
}

// Makes the answer file of a file, where the file was opened.
fn add_file<I: Source + Drop, O: Folder, F: Sink>(
    opened: &mut Opened<I, O::File>,
    folder: &mut O,
    faults: &mut F,
    number: u64,
    path: String,
    reader: Option<I>,
)
    requires named { vec_len opened.old.named < vec_capacity opened.old.named }
    requires pairs { vec_len opened.old.pairs < vec_capacity opened.old.pairs }
    ensures added { IsMade (folder_words O.making O.File.writing) F.writing number (string_bytes path) reader folder.old folder.new opened.old.named.items opened.new.named.items opened.old.pairs.items opened.new.pairs.items faults.old faults.new }
    ensures places { (vec_capacity opened.new.named ≡ vec_capacity opened.old.named) × (vec_capacity opened.new.pairs ≡ vec_capacity opened.old.pairs) }
    ensures fewer { (vec_len opened.new.named ≤ vec_len opened.old.named + 1) × (vec_len opened.new.pairs ≤ vec_len opened.old.pairs + 1) }
    ensures even { vec_len opened.old.named ≡ vec_len opened.old.pairs → vec_len opened.new.named ≡ vec_len opened.new.pairs }
{
    if let Some(reader) = reader {
        add_answered(opened, folder, faults, number, path, reader);
    }
}

// Makes the answer file of each file that was opened, or tells that there is none.
fn add_all<I: Source + Drop, O: Folder, F: Sink>(
    opened: &mut Opened<I, O::File>,
    folder: &mut O,
    faults: &mut F,
    files: Vec<(String, Option<I>)>,
)
    requires empty { (opened.old.named.items ≡ []) × (opened.old.pairs.items ≡ []) }
    requires places { (vec_len files ≤ vec_capacity opened.old.named) × (vec_len files ≤ vec_capacity opened.old.pairs) }
    ensures made { AreMade (folder_words O.making O.File.writing) F.writing (map given_file files.items) folder.old folder.new opened.new.named.items opened.new.pairs.items faults.old faults.new }
    ensures even { vec_len opened.new.named ≡ vec_len opened.new.pairs }
{
    let mut number = 0;
    for (path, reader) in files {
        number += 1;
        add_file(opened, folder, faults, number, path, reader);
    }
}

/// Returns the files that could be opened and whose answer files could be made. It reports the others: those that could not be
/// opened, and then those whose answer files could not be made.
///
/// `AllocError` if an allocation fails: nothing is made or reported then.
pub fn open<I: Source + Drop, O: Folder, F: Sink>(
    alloc: Global,
    folder: &mut O,
    faults: &mut F,
    files: Vec<(String, Option<I>)>,
) -> Result<Opened<I, O::File>, AllocError>
    ensures opened { IfOk result (λ opened. (lines : List (List ℕ))
        × AreOpened (folder_words O.making O.File.writing) (map given_file files.items) folder.old folder.new opened.named.items opened.pairs.items lines
        × AreTold F.writing faults.old lines faults.new) }
    ensures even { IfOk result (λ opened. vec_len opened.named ≡ vec_len opened.pairs) }
    ensures refused { OnErr result ((folder.new ≡ folder.old) × (faults.new ≡ faults.old)) }
{
    let mut opened = with_places(alloc, files.len())?;
    tell_unopened(faults, files.as_slice());
    add_all(&mut opened, folder, faults, files);
    Ok(opened)
}
