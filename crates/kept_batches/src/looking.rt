// What a file is from a mark on.
ghost use Rattle.std.specs.Prelude.{◌≡◌, ◌↔◌, ℕ, List, take, drop, length, IfSome, IsTrue};
ghost use Rattle.kept_batches.specs.File.{shut_mark};
ghost use Rattle.kept_batches.specs.Inner.Finding.{IsMarked, IsLook};

use crate::finding::{Found, find_batch};
use crate::log::MOST_BATCH_BYTES;
use crate::writes::{OPEN, SHUT};

/// What comes next in a file.
#[derive(Clone, Copy)]
pub enum Look {
    /// A batch that counts.
    Batch(Found),
    /// The last batch, whole, after a mark that is neither open nor shut.
    Unmarked(Found),
    /// A shut mark, and no more after it than a batch that does not count.
    Shut,
    /// What neither an append nor a crash leaves.
    Damaged,
}

fn mark_in(text: &[u8]) -> &[u8]
    ensures { result.now ≡ take 4 text.now }
{
    &text[..text.len().min(4)]
}

fn after_mark(text: &[u8]) -> &[u8]
    ensures { result.now ≡ drop 4 text.now }
{
    &text[text.len().min(4)..]
}

fn is_same(text: &[u8], mark: &[u8; 4]) -> bool
    ensures { IsTrue result ↔ (text.now ≡ mark.now) }
{
    text == mark.as_slice()
}

/// The batch with which a text begins, after an open mark.
pub(crate) fn find_marked(head: &[u8; 32], text: &[u8]) -> Option<Found>
    ensures { IfSome result (λ batch. IsMarked head.now text.now batch.size batch.head) }
{
    if !is_same(mark_in(text), OPEN) {
        return None;
    }
    find_batch(head, after_mark(text))
}

/// What a text is from its mark on, after lines of this head. It is the end of a file, or a part of it that begins there and has 16,777,300
/// bytes; of a shorter part only a batch that counts is told for sure.
pub fn look_on(head: &[u8; 32], text: &[u8]) -> Look
    ensures { IsLook head.now text.now result }
{
    let mark = mark_in(text);
    if is_same(mark, SHUT) {
        return look_after_shut(text);
    }
    let after = after_mark(text);
    let Some(found) = find_batch(head, after) else {
        return Look::Damaged;
    };
    if is_same(mark, OPEN) {
        return Look::Batch(found);
    }
    if is_same(&after[75 + found.size..], SHUT) {
        return Look::Unmarked(found);
    }
    Look::Damaged
}

fn look_after_shut(text: &[u8]) -> Look
    requires { take 4 text.now ≡ shut_mark }
    ensures { (last : List ℕ) → IsLook last text.now result }
{
    if text.len() <= 83 + MOST_BATCH_BYTES {
        return Look::Shut;
    }
    Look::Damaged
}
