ghost use Rattle.std.specs.Prelude.{◌≡◌, ℕ, List, ◌++◌, MatchOption};
ghost use Rattle.request_lines.specs.Lines.{whole_lines, last_line, lines_of, with_newline, AreLines, HasNoNewline};

use memchr::memchr;

/// The byte that ends a line.
pub const NEWLINE: u8 = b'\n';

/// How many bytes a line has at most, without its newline.
pub const MOST_LINE_BYTES: usize = 1_048_576;

/// Returns the first line that a newline ends, without its newline, and the bytes after it.
pub fn split_line(bytes: &[u8]) -> Option<(&[u8], &[u8])>
    ensures { MatchOption result (HasNoNewline bytes.now) (λ split. (bytes.now ≡ with_newline split.0.now ++ split.1.now)
        × HasNoNewline split.0.now) }
{
    match memchr(NEWLINE, bytes) {
        Some(at) => Some((&bytes[..at], &bytes[at + 1..])),
        None => None,
    }
}

/// What the lines of bytes are. It does nothing.
pub fn lines_join_to_bytes(bytes: &[u8])
    ensures some { (last : List ℕ) × AreLines bytes.now (whole_lines bytes.now) last
        × (lines_of bytes.now ≡ whole_lines bytes.now ++ last_line last) }
    ensures only { (whole : List (List ℕ)) (last : List ℕ) → AreLines bytes.now whole last →
        (whole ≡ whole_lines bytes.now) × (lines_of bytes.now ≡ whole ++ last_line last) }
{
    let _bytes = bytes;
}
