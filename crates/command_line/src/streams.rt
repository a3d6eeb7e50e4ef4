//! Standard output and standard error of a program that ends quietly when the reader of its output has gone, and standard input whose
//! errors are reported with their cause.

use crate::progress::Progress;
use std::cell::Cell;
use std::io::{self, ErrorKind, Read, Write};

/// Standard input. It notes in `cause` why a read failed, and can show how far it has been read.
#[derive(Drop)]
pub struct Input<'a, R> {
    inner: R,
    cause: &'a Cell<Option<io::Error>>,
    progress: Option<Progress<'a>>,
}

impl<'a, R> Input<'a, R> {
    pub fn new(inner: R, cause: &'a Cell<Option<io::Error>>) -> Self {
        Input {
            inner,
            cause,
            progress: None,
        }
    }

    /// An input that shows how far it has been read.
    pub fn watched(inner: R, cause: &'a Cell<Option<io::Error>>, progress: Progress<'a>) -> Self {
        Input {
            inner,
            cause,
            progress: Some(progress),
        }
    }
}

impl<R: Read> Read for Input<'_, R> {
    fn read(&mut self, buffer: &mut [u8]) -> io::Result<usize> {
        match self.inner.read(buffer) {
            Ok(count) => {
                if let Some(progress) = &mut self.progress {
                    progress.add_text(&buffer[..count.min(buffer.len())]);
                }
                Ok(count)
            }
            Err(error) => {
                self.cause.set(Some(error));
                Err(error)
            }
        }
    }
}

/// Standard output. It notes in `is_gone` that its reader has gone.
#[derive(Drop)]
pub struct Output<'a, W> {
    inner: W,
    is_gone: &'a Cell<bool>,
}

impl<'a, W> Output<'a, W> {
    pub fn new(inner: W, is_gone: &'a Cell<bool>) -> Self {
        Output { inner, is_gone }
    }
}

impl<W: Write> Write for Output<'_, W> {
    fn write(&mut self, bytes: &[u8]) -> io::Result<usize> {
        match self.inner.write(bytes) {
            Ok(count) => Ok(count),
            Err(error) => {
                self.is_gone.set(error.kind() == ErrorKind::BrokenPipe);
                Err(error)
            }
        }
    }

    fn flush(&mut self) -> io::Result<()> {
        self.inner.flush()
    }
}

/// Standard error. It takes nothing once the reader of the output has gone.
#[derive(Drop)]
pub struct Errors<'a, W> {
    inner: W,
    is_gone: &'a Cell<bool>,
}

impl<'a, W> Errors<'a, W> {
    pub fn new(inner: W, is_gone: &'a Cell<bool>) -> Self {
        Errors { inner, is_gone }
    }
}

impl<W: Write> Write for Errors<'_, W> {
    fn write(&mut self, bytes: &[u8]) -> io::Result<usize> {
        if self.is_gone.get() {
            return Err(ErrorKind::BrokenPipe.into());
        }
        self.inner.write(bytes)
    }

    fn flush(&mut self) -> io::Result<()> {
        self.inner.flush()
    }
}
