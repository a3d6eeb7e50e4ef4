ghost use Rattle.std.specs.Prelude.{◌≡◌, ◌<◌, ◌≤◌, [], ◌++◌, length, OnOk, OnErr, true, false};
ghost use Rattle.request_lines.specs.Inner.Gathered.{Gathers, waiting};

use super::faults::Failed;
use super::streams::{Sink, write_all};

/// How many bytes wait at most: what is gathered takes no more memory, however long the answers are.
const MOST_WAITING_BYTES: usize = 65_536;

/// A sink that keeps what it takes, so that its writer takes the bytes of several lines at once.
#[derive(Drop)]
pub struct Gathering<'w, 't, W: Sink> {
    pub writer: &'w mut W,

    /// The bytes that wait, after those that are written.
    pub text: &'t mut Vec<u8>,

    /// How many bytes of the text are written.
    pub sent: usize,
    ghost bound: { sent ≤ length text.now.items },
}

impl<W: Sink> Gathering<'_, '_, W> {
    /// Returns the number of bytes that wait.
    pub fn len(&self) -> usize
        ensures { result ≡ length (waiting self.now.text.now.items self.now.sent) }
    {
        self.text.len() - self.sent
    }

    /// Keeps the bytes to be written with the others, if there is room for them.
    fn keep(&mut self, bytes: &[u8]) -> bool
        ensures writer { self.new.writer ≡ self.old.writer }
        ensures waits { result ≡ true → waiting self.new.text.now.items self.new.sent ≡ waiting self.old.text.now.items self.old.sent ++ bytes.now }
        ensures same { result ≡ false → waiting self.new.text.now.items self.new.sent ≡ waiting self.old.text.now.items self.old.sent }
    {
        if self.text.len() + bytes.len() > MOST_WAITING_BYTES {
            return false;
        }
        self.text.extend_from_slice(bytes).is_ok()
    }

    /// Writes the bytes that wait. After an `Err` those that are not written wait.
    pub fn send(&mut self) -> Result<(), Failed>
        ensures writer { self.new.writer.ghost_name ≡ self.old.writer.ghost_name }
        ensures gathers { Gathers W.writing self.old.writer.now (waiting self.old.text.now.items self.old.sent) [] self.new.writer.now (waiting self.new.text.now.items self.new.sent) }
        ensures ok { OnOk result (waiting self.new.text.now.items self.new.sent ≡ []) }
        ensures unfailed { OnOk result (W.writing.failed self.new.writer.now ≡ W.writing.failed self.old.writer.now) }
        ensures some { OnErr result (0 < length (waiting self.new.text.now.items self.new.sent)) }
        ensures failed { OnErr result (W.writing.failed self.new.writer.now ≡ true) }
    {
        match write_all(self.writer, &self.text.as_slice()[self.sent..]) {
            Ok(()) => {
                self.sent = 0;
                self.text.clear();
                Ok(())
            }
            Err(more) => {
                self.sent += more;
                Err(Failed)
            }
        }
    }
}

impl<W: Sink> Sink for Gathering<'_, '_, W> {
    ghost use Rattle.std.specs.Prelude.{◌≡◌, refl};
    ghost use Rattle.std.proofs.Common.{◌∙◌};
    ghost use Rattle.request_lines.specs.Inner.Gathered.{Gathers, waiting, gathers_none, gathers_more};

    ghost writing = { record {
      takes = λ a bytes b. (b.writer.ghost_name ≡ a.writer.ghost_name)
          × Gathers W.writing a.writer.now (waiting a.text.now.items a.sent) bytes b.writer.now (waiting b.text.now.items b.sent);
      failed = λ a. W.writing.failed a.writer.now;
    } };

    ghost takes_none = { λ a. (refl, gathers_none W.writing W.takes_none a.writer.now (waiting a.text.now.items a.sent)) };

    ghost takes_more = { λ a b c xs ys h k. (
      k.0 ∙ h.0,
      gathers_more W.writing W.takes_more a.writer.now b.writer.now c.writer.now
          (waiting a.text.now.items a.sent) (waiting b.text.now.items b.sent) (waiting c.text.now.items c.sent) xs ys h.1 k.1,
    ) };

    fn write(&mut self, bytes: &[u8]) -> Result<usize, Failed> {
        if self.keep(bytes) {
            return Ok(bytes.len());
        }
        self.send()?;
        self.writer.write(bytes)
    }
}
