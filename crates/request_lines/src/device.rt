ghost use Rattle.std.specs.Prelude.{◌≡◌, ◌+◌, ◌^◌, ◌<◌, false};
ghost use Rattle.std.specs.Io.KnownBytes.{Consumes, Appends, IsAtEnd};
ghost use Rattle.request_lines.specs.Inner.Known.{gives_none, gives_more, appends_none, appends_more};

use super::faults::Failed;
use super::streams::{Sink, Source};
use std::io::{Read, Write};

/// A source of a reader of std, or a sink of an unbuffered writer. What is known of their bytes is what std says: all
/// of a slice or a vector, and nothing of a file or a terminal.
#[derive(Drop)]
pub struct Device<T> {
    pub inner: T,

    /// The read calls so far, while they fit.
    pub reads: u64,

    pub has_failed: bool,
}

impl<T> Device<T> {
    pub fn new(inner: T) -> Self
        ensures inner { result.inner ≡ inner }
        ensures reads { result.reads ≡ 0 }
        ensures has_failed { result.has_failed ≡ false }
    {
        Device {
            inner,
            reads: 0,
            has_failed: false,
        }
    }

    pub fn into_inner(self) -> T
        ensures { result ≡ self.inner }
    {
        let Device {
            inner,
            reads: _,
            has_failed: _,
        } = self;
        inner
    }
}

impl<T: Read> Source for Device<T> {
    ghost reading = { record {
      gives = λ a calls bytes b. (a.reads + calls < 2 ^ 64 → b.reads ≡ a.reads + calls) × Consumes (T.remaining a.inner) (T.remaining b.inner) bytes;
      at_end = λ a. IsAtEnd (T.remaining a.inner);
      failed = λ a. a.has_failed;
    } };

    ghost gives_none = { λ a. gives_none (T.remaining a.inner) a.reads };

    ghost gives_more = { λ a b c m n xs ys h k. gives_more (T.remaining a.inner) (T.remaining b.inner) (T.remaining c.inner) a.reads b.reads c.reads m n xs ys h k };

    fn read(&mut self, buffer: &mut [u8]) -> Result<usize, Failed> {
        self.reads = self.reads.saturating_add(1);
        match self.inner.read(buffer) {
            Ok(n) => Ok(n),
            Err(_) => {
                self.has_failed = true;
                Err(Failed)
            }
        }
    }
}

impl<T: Write> Sink for Device<T> {
    ghost writing = { record {
      takes = λ a bytes b. Appends (T.contents a.inner) (T.contents b.inner) bytes;
      failed = λ a. a.has_failed;
    } };

    ghost takes_none = { λ a. appends_none (T.contents a.inner) };

    ghost takes_more = { λ a b c xs ys h k. appends_more (T.contents a.inner) (T.contents b.inner) (T.contents c.inner) xs ys h k };

    fn write(&mut self, bytes: &[u8]) -> Result<usize, Failed> {
        match self.inner.write(bytes) {
            Ok(n) if n > 0 => Ok(n),
            _ => {
                self.has_failed = true;
                Err(Failed)
            }
        }
    }
}
