// Lines, each after its `+` and with its newline.
ghost use Rattle.std.specs.Prelude.{◌≡◌, [], ◌↔◌, IfSome, IsNone, IsTrue};
ghost use Rattle.kept_batches.specs.Text.{lines_in, marked};
ghost use Rattle.kept_batches.specs.Inner.Lines.{BeginsLine, BeginsNoLine};

use memchr::memchr;

pub(crate) const MARK: u8 = b'+';

pub(crate) const NEWLINE: u8 = b'\n';

/// The number of bytes of the line that a text begins with, without its `+` and its newline.
pub(crate) fn line_length(text: &[u8]) -> Option<usize>
    ensures some { IfSome result (BeginsLine text.now) }
    ensures none { IsNone result → BeginsNoLine text.now }
{
    let (&mark, after) = text.split_first()?;
    if mark != MARK {
        return None;
    }
    memchr(NEWLINE, after)
}

/// Whether a text is whole lines.
pub(crate) fn are_lines(text: &[u8]) -> bool
    ensures { IsTrue result ↔ (text.now ≡ marked (lines_in text.now)) }
{
    let mut rest = text;
    while let Some(count) = line_length(rest) {
        rest = &rest[count + 2..];
    }
    is_nothing(rest)
}

pub(crate) fn is_nothing(text: &[u8]) -> bool
    ensures { IsTrue result ↔ (text.now ≡ []) }
{
    text.is_empty()
}
