//! Lines of a file that wait for a flag, and set one at their end.

use super::flags::wait_for;
use request_lines::{Device, Failed, Source};
use std::fs::File;
use std::sync::atomic::{AtomicBool, Ordering};

/// The lines of a file, given once a flag is set.
#[derive(Drop)]
pub struct Lines<'f> {
    pub file: Device<File>,
    pub behind: Option<&'f AtomicBool>,
    /// Set at the end of the file: what asks for more has answered all lines before.
    pub sets: &'f AtomicBool,
}

impl Source for Lines<'_> {
    ghost reading = { record {
      gives = λ a calls bytes b. Unit {0};
      at_end = λ a. Unit {0};
      failed = λ a. a.file.has_failed;
    } };

    ghost gives_none = { λ a. tt };

    ghost gives_more = { λ a b c m n xs ys h k. tt };

    fn read(&mut self, buffer: &mut [u8]) -> Result<usize, Failed> {
        if let Some(flag) = self.behind {
            let _ = wait_for(flag);
        }
        let count = self.file.read(buffer)?;
        if count == 0 {
            self.sets.store(true, Ordering::SeqCst);
        }
        Ok(count)
    }
}
