//! How far a long command is, in lines on standard error.

use crate::arguments::{Arguments, CommandOption};
use crate::fault::Fault;
use std::io::{self, Eprint, IsTerminal, Read};

/// How many more bytes are done before the next line is written: about a second's, since the program has no clock.
const STEP: u64 = 1 << 25;

const MEGABYTE: u64 = 1_000_000;

const NEWLINE: u8 = b'\n';

/// How progress is written.
#[derive(Clone, Copy)]
enum Form {
    Text,
    Json,
}

/// What a command does with lines one after another.
#[derive(Clone, Copy)]
pub enum Work {
    Read,
    Counted,
    Answered,
}

/// Lines and their bytes.
#[derive(Clone, Copy)]
struct Amount {
    lines: u64,
    bytes: u64,
}

const NOTHING: Amount = Amount { lines: 0, bytes: 0 };

/// How far a long command is. It writes a line to standard error after each 33,554,432 bytes: as text if `--progress` was given or standard
/// error is a terminal, as a JSON object if `--progress=json` was given.
#[derive(Drop)]
pub struct Progress<'a> {
    rt: &'a HostRuntime,
    form: Option<Form>,
    work: Work,
    done: Amount,
    /// How much there is in all; no bytes, if that is not known.
    all: Amount,
    /// How many bytes are done when the next line is written.
    next: u64,
}

fn form_of(rt: &HostRuntime, arguments: &Arguments<'_>) -> Result<Option<Form>, Fault<'static>> {
    match arguments.value_of(CommandOption::Progress) {
        Some("json") => Ok(Some(Form::Json)),
        Some(_) => Err(Fault::Usage),
        None if arguments.has(CommandOption::Progress) || rt.stderr().is_terminal() => {
            Ok(Some(Form::Text))
        }
        None => Ok(None),
    }
}

impl Work {
    fn name(self) -> &'static str {
        match self {
            Work::Read => "read",
            Work::Counted => "counted",
            Work::Answered => "answered",
        }
    }
}

impl<'a> Progress<'a> {
    /// Begins to read lines as these arguments of the command ask for it.
    ///
    /// # Errors
    ///
    /// `Usage` if `--progress` has another value than `json`.
    pub fn of(rt: &'a HostRuntime, arguments: &Arguments<'_>) -> Result<Self, Fault<'static>> {
        Ok(Progress {
            rt,
            form: form_of(rt, arguments)?,
            work: Work::Read,
            done: NOTHING,
            all: NOTHING,
            next: STEP,
        })
    }

    /// There are so many bytes to read in all.
    pub fn expect(&mut self, bytes: u64) {
        self.all = Amount { lines: 0, bytes };
    }

    /// Begins this work. If lines were counted, it is to be done with those.
    pub fn begin(&mut self, work: Work) {
        if let Work::Counted = self.work {
            self.all = self.done;
        }
        self.work = work;
        self.done = NOTHING;
        self.next = STEP;
    }

    /// The lines of this text were done.
    pub fn add_text(&mut self, text: &[u8]) {
        let lines = text.iter().filter(|byte| **byte == NEWLINE).count();
        self.add(lines as u64, text.len() as u64);
    }

    /// So many lines, of so many bytes, were done.
    pub fn add(&mut self, lines: u64, bytes: u64) {
        self.done.lines = self.done.lines.saturating_add(lines);
        self.done.bytes = self.done.bytes.saturating_add(bytes);
        if self.done.bytes < self.next {
            return;
        }
        self.next = self.done.bytes.saturating_add(STEP);
        match self.form {
            Some(Form::Text) => self.write_text(),
            Some(Form::Json) => self.write_json(),
            None => {}
        }
    }

    fn write_text(&self) {
        let rt = self.rt;
        let Amount { lines, bytes } = self.done;
        let (work, bytes) = (self.work.name(), bytes / MEGABYTE);
        let (all_lines, all_bytes) = (self.all.lines, self.all.bytes / MEGABYTE);
        let _ = match self.all {
            Amount { bytes: 0, .. } => eprintln!(rt; "clear: {work} {lines} lines, {bytes} MB"),
            Amount { lines: 0, .. } => {
                eprintln!(rt; "clear: {work} {lines} lines, {bytes} of {all_bytes} MB")
            }
            _ => {
                eprintln!(rt;
                    "clear: {work} {lines} of {all_lines} lines, {bytes} of {all_bytes} MB"
                )
            }
        };
    }

    fn write_json(&self) {
        let rt = self.rt;
        let Amount { lines, bytes } = self.done;
        let work = self.work.name();
        let (all_lines, all_bytes) = (self.all.lines, self.all.bytes);
        let _ = match self.all {
            Amount { bytes: 0, .. } => {
                eprintln!(rt; "{{\"progress\":\"{work}\",\"lines\":{lines},\"bytes\":{bytes}}}")
            }
            Amount { lines: 0, .. } => {
                eprintln!(rt;
                    "{{\"progress\":\"{work}\",\"lines\":{lines},\"bytes\":{bytes},\"of_bytes\":{all_bytes}}}"
                )
            }
            _ => {
                eprintln!(rt;
                    "{{\"progress\":\"{work}\",\"lines\":{lines},\"of_lines\":{all_lines},\"bytes\":{bytes},\"of_bytes\":{all_bytes}}}"
                )
            }
        };
    }
}

/// A reader of lines that shows how far it has been read.
#[derive(Drop)]
pub struct Watched<'a, R> {
    /// The reader itself.
    pub inner: R,
    progress: Progress<'a>,
}

impl<'a, R> Watched<'a, R> {
    pub fn new(inner: R, progress: Progress<'a>) -> Self {
        Watched { inner, progress }
    }
}

impl<R: Read> Read for Watched<'_, R> {
    fn read(&mut self, buffer: &mut [u8]) -> io::Result<usize> {
        let count = self.inner.read(buffer)?;
        self.progress.add_text(&buffer[..count.min(buffer.len())]);
        Ok(count)
    }
}
