//! The lines of a store, read without opening it for writing: the reader sees whole batches, from the first on, also while another
//! program appends. It refuses the damage that `kept_batches::Recovery` refuses.

use crate::first_format::is_first_format;
use crate::opening::{is_regular, lines_path};
use kept_answers::KeepFault;
use kept_batches::{Found, Look, MOST_WINDOW, first_head, look_on};
use kept_house::{StoreFault, config_in};
use memchr::memchr;
use ocpi_types::{Config, ConfigFault};
use std::alloc::{AllocError, Global};
use std::fs::File;
use std::io::{self, ErrorKind, Read};
use std::os::unix::fs::FileExt;

/// More lines than a store may have.
pub const MOST_LINES: u64 = 1 << 60;

/// The number of bytes of a read, unless the next batch has more.
const CHUNK: usize = 1 << 16;

const MARK_BYTES: usize = 4;

/// The bytes before the lines of a batch: its mark, length and head.
const HEADER_BYTES: usize = 79;

const SHUT: &[u8] = b"----";

/// A store that is read line by line.
#[derive(Drop)]
pub struct StoreReader {
    file: File,
    /// A part of the file, where it begins there, and where in it the next line of a batch begins, and the mark after that batch.
    window: Vec<u8>,
    begin: u64,
    next: usize,
    stop: usize,
    /// Where in it the line that was read last begins and ends.
    line: usize,
    line_end: usize,
    /// The head after the batches that were read, and their number.
    head: [u8; 32],
    batches: u64,
    /// Whether no batch is left, and how many bytes come after the last mark then.
    end: Option<usize>,
}

impl StoreReader {
    /// Opens the store at this path to be read.
    pub fn open(rt: &HostRuntime, store: &str) -> Result<StoreReader, ReadingFault> {
        let path = lines_path(rt, store)?;
        if !is_regular(rt, path.as_str())? {
            return Err(ReadingFault::NoRegularFile);
        }
        let file = File::open(rt, path.as_str())?;
        if is_first_format(&file)? {
            return Err(ReadingFault::FirstFormat);
        }
        Ok(StoreReader {
            file,
            window: Vec::new(rt.alloc()),
            begin: 0,
            next: 0,
            stop: 0,
            line: 0,
            line_end: 0,
            head: first_head(),
            batches: 0,
            end: None,
        })
    }

    /// How many bytes the store's file has.
    pub fn file_bytes(&self) -> io::Result<u64> {
        Ok(self.file.metadata()?.len())
    }

    /// Goes to the next kept line, and returns whether there is one.
    pub fn next_line(&mut self) -> Result<bool, ReadingFault> {
        for _ in 0..MOST_LINES {
            if self.next < self.stop {
                return Ok(self.lend());
            }
            if self.end.is_some() || !self.next_batch()? {
                return Ok(false);
            }
        }
        Err(ReadingFault::Store(StoreFault::NoStore))
    }

    /// Goes to the next line of the batch, which has one.
    fn lend(&mut self) -> bool {
        let Some(count) = memchr(b'\n', part_of(&self.window, self.next, self.stop)) else {
            return false;
        };
        self.line = self.next.saturating_add(1);
        self.line_end = self.next.saturating_add(count);
        self.next = self.line_end.saturating_add(1);
        true
    }

    /// Goes to the next batch, and returns whether there is one.
    fn next_batch(&mut self) -> Result<bool, ReadingFault> {
        let left = part_of(&self.window, self.stop, self.window.len());
        if let Look::Batch(found) = look_on(&self.head, left) {
            return Ok(self.take(found));
        }
        self.begin = self.begin.saturating_add(self.stop as u64);
        self.next = 0;
        self.stop = 0;
        self.fill(CHUNK)?;
        if let Look::Batch(found) = look_on(&self.head, &self.window) {
            return Ok(self.take(found));
        }
        // What another program writes meanwhile may look like damage, and does not when it is read again.
        match self.look_further()? {
            Some(is_batch) => Ok(is_batch),
            None => match self.look_further()? {
                Some(is_batch) => Ok(is_batch),
                None => Err(KeepFault::Damaged(self.begin as usize).into()),
            },
        }
    }

    /// Reads as many bytes as a batch may have, and takes the batch or the end that is there. Returns whether it is a batch, or `None` if it
    /// is damage.
    fn look_further(&mut self) -> io::Result<Option<bool>> {
        self.fill(MOST_WINDOW)?;
        if self.begin == 0 && self.window.len() <= MARK_BYTES {
            self.end = Some(0);
            return Ok(Some(false));
        }
        match look_on(&self.head, &self.window) {
            Look::Batch(found) => Ok(Some(self.take(found))),
            Look::Unmarked(found) => {
                self.end = Some(0);
                Ok(Some(self.take(found)))
            }
            Look::Shut => {
                self.end = Some(self.window.len().saturating_sub(MARK_BYTES));
                Ok(Some(false))
            }
            Look::Damaged => Ok(None),
        }
    }

    /// Takes the batch that begins where the one before ended.
    fn take(&mut self, found: Found) -> bool {
        let head = found.head;
        self.next = self.stop.saturating_add(HEADER_BYTES);
        self.stop = self.next.saturating_add(found.size);
        self.head = head;
        self.batches = self.batches.saturating_add(1);
        true
    }

    /// Reads at most so many bytes of the file, from where the window begins on.
    fn fill(&mut self, most: usize) -> io::Result<()> {
        self.window.clear();
        let left = self.file_bytes()?.saturating_sub(self.begin);
        self.window.resize(most.min(left as usize), 0)?;
        let filled = read_from(&self.file, self.begin, &mut self.window)?;
        self.window.truncate(filled);
        Ok(())
    }

    /// The line to which `next_line` went.
    pub fn line(&self) -> &[u8] {
        part_of(&self.window, self.line, self.line_end)
    }

    /// The same with its newline.
    fn ended_line(&self) -> &[u8] {
        part_of(&self.window, self.line, self.line_end.saturating_add(1))
    }

    /// The head after the batches that were read: after the last line, that of the store.
    pub fn head(&self) -> &[u8; 32] {
        &self.head
    }

    /// The number of batches that were read.
    pub fn batches(&self) -> u64 {
        self.batches
    }

    /// Whether bytes that were never acknowledged come after the last batch. `next_line` has returned that there is no more line.
    pub fn is_torn(&self) -> bool {
        !matches!(self.end, None | Some(0))
    }
}

/// The bytes of a window from one place to another, or none if it has not so many.
fn part_of(window: &[u8], from: usize, to: usize) -> &[u8] {
    window.get(from..to).unwrap_or(&[])
}

/// Reads the bytes of a file from a place on, up to its end, and returns how many they are.
fn read_from(file: &File, at: u64, buffer: &mut [u8]) -> io::Result<usize> {
    let count = buffer.len();
    let mut filled = 0;
    while filled < count {
        let read = file.read_at(&mut buffer[filled..], at.saturating_add(filled as u64))?;
        if read == 0 {
            break;
        }
        filled += read.min(count - filled);
    }
    Ok(filled)
}

/// The kept lines of a store, each with its newline, as one text.
#[derive(Drop)]
pub struct StoreText {
    reader: StoreReader,
    /// How many bytes of the line that was read last are given.
    given: usize,
    /// Why the lines are not read on, if one was refused or a read failed.
    fault: Option<ReadingFault>,
}

impl StoreText {
    /// Opens the store at this path, and returns it before its first line, with the text of its configuration.
    pub fn open(rt: &HostRuntime, store: &str) -> Result<(StoreText, Vec<u8>), ReadingFault> {
        let (reader, config) = open_begun(rt, store)?;
        let text = StoreText {
            given: reader.ended_line().len(),
            reader,
            fault: None,
        };
        Ok((text, config))
    }

    /// How many bytes the store's file has.
    pub fn file_bytes(&self) -> io::Result<u64> {
        self.reader.file_bytes()
    }

    /// Returns why the lines are not read on, if one was refused or a read failed.
    pub fn unread(&self) -> Option<ReadingFault> {
        self.fault
    }
}

impl Read for StoreText {
    fn read(&mut self, buffer: &mut [u8]) -> io::Result<usize> {
        if self.given >= self.reader.ended_line().len() {
            match self.reader.next_line() {
                Ok(true) => self.given = 0,
                Ok(false) => return Ok(0),
                Err(fault) => {
                    self.fault = Some(fault);
                    return Err(ErrorKind::InvalidData.into());
                }
            }
        }
        let line = self.reader.ended_line();
        let rest = part_of(line, self.given, line.len());
        let count = rest.len().min(buffer.len());
        buffer[..count].copy_from_slice(&rest[..count]);
        self.given = self.given.saturating_add(count);
        Ok(count)
    }
}

/// Why a store that is read is not read on.
#[derive(Clone, Copy)]
pub enum ReadingFault {
    /// The file does not open, or a read fails.
    Read(io::Error),
    /// The store's file is a folder, a FIFO or another file that is not regular.
    NoRegularFile,
    /// The store has the format before this one.
    FirstFormat,
    /// The writer fails.
    Write,
    /// The file does not begin with the record of a store, or it is damaged.
    Store(StoreFault),
}

impl From<io::Error> for ReadingFault {
    fn from(cause: io::Error) -> Self {
        ReadingFault::Read(cause)
    }
}

impl From<AllocError> for ReadingFault {
    fn from(error: AllocError) -> Self {
        ReadingFault::Read(io::Error::from(error))
    }
}

impl From<KeepFault> for ReadingFault {
    fn from(fault: KeepFault) -> Self {
        ReadingFault::Store(StoreFault::Keep(fault))
    }
}

impl From<StoreFault> for ReadingFault {
    fn from(fault: StoreFault) -> Self {
        ReadingFault::Store(fault)
    }
}

/// Goes past the first line of a store, and returns the text of its configuration.
fn first_config(alloc: Global, reader: &mut StoreReader) -> Result<Vec<u8>, ReadingFault> {
    if !reader.next_line()? {
        return Err(ReadingFault::Store(StoreFault::NoStore));
    }
    Ok(Vec::from_slice(alloc, config_in(reader.line())?)?)
}

/// Opens the store at this path, and returns it before its first line, with the text of its configuration.
///
/// # Errors
///
/// `Store` of `NoStore` if the file does not begin with a record, or if its configuration does not read.
pub fn open_begun(rt: &HostRuntime, store: &str) -> Result<(StoreReader, Vec<u8>), ReadingFault> {
    let mut reader = StoreReader::open(rt, store)?;
    let config = first_config(rt.alloc(), &mut reader)?;
    match Config::read(rt.alloc(), config.as_slice()) {
        Ok(_) => Ok((reader, config)),
        Err(ConfigFault::NoMemory) => Err(KeepFault::NoMemory.into()),
        Err(_) => Err(ReadingFault::Store(StoreFault::NoStore)),
    }
}

/// Prints why a store is not read on, unless the reader of the output has gone, and returns the exit status.
pub fn tell_unread(rt: &HostRuntime, is_gone: bool, store: &str, fault: ReadingFault) -> u8 {
    let _ = match fault {
        ReadingFault::Write if is_gone => Ok(()),
        ReadingFault::Write => eprintln!(rt; "clear: cannot write"),
        ReadingFault::Read(cause) if cause.kind() == ErrorKind::OutOfMemory => {
            eprintln!(rt; "clear: no memory")
        }
        ReadingFault::Read(cause) => eprintln!(rt; "clear: cannot read {store}: {cause}"),
        ReadingFault::NoRegularFile => {
            eprintln!(rt; "clear: {store}: requests is no regular file")
        }
        ReadingFault::FirstFormat => {
            eprintln!(rt;
                "clear: {store}: a store of format 1; clear upgrade makes a copy of this format"
            )
        }
        ReadingFault::Store(
            StoreFault::Keep(KeepFault::NoMemory) | StoreFault::Config(ConfigFault::NoMemory),
        ) => { eprintln!(rt; "clear: no memory") }
        ReadingFault::Store(fault) => eprintln!(rt; "clear: {store}: {fault}"),
    };
    1
}
