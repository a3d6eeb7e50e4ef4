//! The head after lines.

ghost use Rattle.std.specs.Prelude.{◌≡◌, ◌++◌, [], ◌↔◌, IsTrue};
ghost use Rattle.sha2.specs.Sha256.{sha256};
ghost use Rattle.kept_batches.specs.Heads.{head, heads_from};
ghost use Rattle.kept_batches.specs.Text.{lines_in, marked};

use crate::lines::line_length;
use sha2::{Digest, Sha256};

/// The head after no line.
pub fn first_head() -> [u8; 32]
    ensures { result ≡ head [] }
{
    Sha256::digest(b"")
}

/// The head after one more line.
pub fn next_head(head: &[u8; 32], line: &[u8]) -> [u8; 32]
    ensures { result ≡ sha256 (head.now ++ line.now) }
{
    let mut hasher = Sha256::new();
    hasher.update(head);
    hasher.update(line);
    hasher.finalize()
}

/// The head after the lines of a text, each after its `+` and with its newline.
pub fn head_after(head: &[u8; 32], text: &[u8]) -> [u8; 32]
    ensures { result ≡ heads_from head.now (lines_in text.now) }
{
    let mut last = *head;
    let mut rest = text;
    while let Some(count) = line_length(rest) {
        last = next_head(&last, &rest[1..count + 1]);
        rest = &rest[count + 2..];
    }
    last
}
