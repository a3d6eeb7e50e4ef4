// The batch with which a text begins.
ghost use Rattle.std.specs.Prelude.{◌≡◌, IfSome, IsNone};
ghost use Rattle.kept_batches.specs.Verdict.{number};
ghost use Rattle.kept_batches.specs.Inner.Finding.{IsFound, IsMissing, HasLines};

use crate::header::is_header;
use crate::heads::head_after;
use crate::lines::are_lines;
use crate::log::MOST_BATCH_BYTES;

/// A batch at the front of a text.
#[derive(Clone, Copy)]
pub struct Found {
    /// The number of bytes of its lines.
    pub size: usize,
    /// The head after them.
    pub head: [u8; 32],
}

fn number_in(text: &[u8]) -> usize
    ensures { result ≡ number 0 text.now }
{
    let mut number: usize = 0;
    let mut rest = text;
    while let Some((&digit, after)) = rest.split_first() {
        number = number.min(99_999_999) * 10 + usize::from(digit.saturating_sub(48));
        rest = after;
    }
    number
}

/// The batch with which a text after a mark begins, after lines of this head.
pub(crate) fn find_batch(head: &[u8; 32], text: &[u8]) -> Option<Found>
    ensures some { IfSome result (λ batch. IsFound head.now text.now batch.size batch.head) }
    ensures lines { IfSome result (λ batch. HasLines text.now batch.size) }
    ensures none { IsNone result → IsMissing head.now text.now }
{
    if text.len() < 75 {
        return None;
    }
    let size = number_in(&text[1..9]);
    if size > MOST_BATCH_BYTES {
        return None;
    }
    if text.len() - 75 < size {
        return None;
    }
    let lines = &text[75..75 + size];
    if !are_lines(lines) {
        return None;
    }
    let next = head_after(head, lines);
    if !is_header(&text[..75], size, &next) {
        return None;
    }
    Some(Found { size, head: next })
}
