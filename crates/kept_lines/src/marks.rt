// The bytes between lines.
ghost use Rattle.std.specs.Prelude.{◌≡◌, ◌↔◌, ◌+◌, ◌<◌, length, slice_index, IfSome, IsNone, IsTrue};
ghost use Rattle.kept_lines.specs.Inner.Window.{BeginsLine, BeginsNoLine, MayEndBy};

use memchr::memchr;

const OPEN: u8 = b'+';

const CLOSED: u8 = b'-';

const NEWLINE: u8 = b'\n';

// How many bytes may come after a closed mark: those of one batch, which a crash has left there.
const MOST_BATCH_BYTES: usize = 3_145_728;

/// The number of bytes of the line that a text begins with, without its mark and its newline.
pub(crate) fn line_length(text: &[u8]) -> Option<usize>
    ensures some { IfSome result (BeginsLine text.now) }
    ensures none { IsNone result → BeginsNoLine text.now }
{
    let (&mark, after) = text.split_first()?;
    if mark != OPEN {
        return None;
    }
    memchr(NEWLINE, after)
}

/// Whether a text that begins with no whole line begins with more bytes than a line may have.
pub(crate) fn begins_too_long(text: &[u8], limit: usize) -> bool
    ensures { IsTrue result ↔ (slice_index text.now 0 ≡ OPEN) × (limit + 1 < length text.now) }
{
    let Some((&mark, after)) = text.split_first() else {
        return false;
    };
    mark == OPEN && after.len() > limit
}

/// Whether a file may end with `left` bytes of which these are the first.
pub(crate) fn may_end(text: &[u8], left: usize) -> bool
    ensures { IsTrue result ↔ MayEndBy left text.now }
{
    let Some((&mark, _after)) = text.split_first() else {
        return true;
    };
    mark == CLOSED && left <= MOST_BATCH_BYTES + 1
}
