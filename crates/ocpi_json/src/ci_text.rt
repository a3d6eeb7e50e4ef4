// A text whose ASCII letters count the same in either case.
ghost use Rattle.std.specs.Prelude.{◌≡◌, ◌≤◌, length};
ghost use Rattle.std.specs.Cmp.Lexicographic.{slice_cmp};
ghost use Rattle.std.specs.Ordering.{nat_cmp};
ghost use Rattle.ocpi_json.specs.Folded.{folded, is_printable};
ghost use Rattle.ocpi_json.specs.Inner.Cells.{written_len};

use std::alloc::AllocError;
use std::cmp::Ordering;
use std::hash::{Hash, Hasher};
use std::marker::Model;
use std::str;

/// A CiString of OCPI 2.2.1, chapter 'Types': at most `MOST` bytes of printable ASCII, bytes 32 to 126. It is kept as
/// written, with zeros behind it, and compared with its letters folded.
pub struct CiText<const MOST: usize> {
    cells: [u8; MOST],
}

impl<const MOST: usize> Model for CiText<MOST> {
    ghost use Rattle.std.specs.Prelude.{ℕ, List};
    ghost use Rattle.ocpi_json.specs.Inner.Cells.{Holds, padded, refilled, written};

    ghost Value = { List ℕ };

    ghost view = { λ t. written t.cells };

    ghost invariant = { λ t. Holds MOST t.cells };

    ghost inverse = { λ s. record { cells = padded MOST s } };

    ghost inverse_ok = { λ t h i. record { cells = refilled MOST t.cells h i } };
}

impl<const MOST: usize> Clone for CiText<MOST> {
    ghost use Rattle.std.specs.Prelude.{◌≡◌, ⊤};

    ghost is_clone = { λ x y. y ≡ x };

    ghost is_infallible = { λ _. ⊤ };

    fn clone(&self) -> Result<CiText<MOST>, AllocError> {
        Ok(*self)
    }
}

impl<const MOST: usize> Copy for CiText<MOST> {}

fn folded_cmp(ours: &[u8], theirs: &[u8]) -> Ordering
    ensures { result ≡ slice_cmp nat_cmp (folded ours.now) (folded theirs.now) }
{
    let ours = ours.iter().map(|byte| byte.to_ascii_lowercase());
    ours.cmp(theirs.iter().map(|byte| byte.to_ascii_lowercase()))
}

fn are_printable(text: &[u8]) -> bool
    ensures { result ≡ is_printable text.now }
{
    text.iter().all(|byte| 32 <= *byte && *byte <= 126)
}

// How many bytes stand before the first zero.
fn written_len(cells: &[u8]) -> usize
    ensures value { result ≡ written_len cells.now }
    ensures within { result ≤ length cells.now }
{
    for (index, byte) in cells.iter().enumerate() {
        if *byte == 0 {
            return index;
        }
    }
    cells.len()
}

impl<const MOST: usize> CiText<MOST> {
    ghost use Rattle.std.specs.Prelude.{◌≡◌, ◌≤◌, ◌↔◌, length, IsSome, IfSome, nat_le, ◌&&◌, true};
    ghost use Rattle.ocpi_json.specs.Folded.{folded, is_printable, same_folded};
    ghost use Rattle.ocpi_json.specs.Inner.Cells.{padded};

    /// The text as a `CiText`; `None` where it is not printable ASCII, or too long.
    pub fn new(text: &str) -> Option<CiText<MOST>>
        ensures fits { IsSome result ↔ ((is_printable text.now && nat_le (length text.now) MOST) ≡ true) }
        ensures value { IfSome result (λ t. t ≡ text.now) }
    {
        if MOST < text.len() || !are_printable(text.as_bytes()) {
            return None;
        }
        let mut cells = [0; MOST];
        cells[..text.len()].copy_from_slice(text.as_bytes());
        Some(CiText { cells })
    }

    /// The text as written.
    pub fn as_str(&self) -> &str
        ensures value { result.now ≡ self.now }
        ensures printable { is_printable self.now ≡ true }
        ensures fits { length self.now ≤ MOST }
    {
        let len = written_len(&self.cells);
        unsafe { str::from_utf8_unchecked(&self.cells[..len]) }
    }

    /// The same text, with room for more bytes.
    pub fn widened<const MORE: usize>(&self) -> CiText<MORE>
        requires { MOST ≤ MORE }
        ensures { result ≡ self.now }
    {
        let mut cells = [0; MORE];
        cells[..MOST].copy_from_slice(&self.cells);
        CiText { cells }
    }

    /// The same text in the same letters.
    pub(crate) fn is_written_like(&self, other: &CiText<MOST>) -> bool
        ensures { (result ≡ true) ↔ (self.now ≡ other.now) }
    {
        self.cells == other.cells
    }

    // Ends at the first byte that differs.
    fn is_folded_like(&self, other: &CiText<MOST>) -> bool
        ensures { result ≡ same_folded self.now other.now }
    {
        self.cells.eq_ignore_ascii_case(&other.cells)
    }

    // With letters folded, and zeros behind it: so many bytes are hashed at once.
    #[inline(always)]
    #[tactic(auto, using(crate::proofs::Printable::cells_folded))]
    fn folded_cells(&self) -> [u8; MOST]
        ensures { result ≡ padded MOST (folded self.now) }
    {
        let mut cells = self.cells;
        cells.make_ascii_lowercase();
        cells
    }
}

impl<const MOST: usize> PartialEq for CiText<MOST> {
    ghost use Rattle.std.specs.Prelude.{◌==◌};
    ghost use Rattle.std.proofs.Common.{rules};
    ghost use Rattle.std.specs.Cmp.Rules.{comparing};
    ghost use Rattle.std.specs.Ordering.{on};
    ghost use Rattle.std.specs.Cmp.Lexicographic.{pointwise};
    ghost use Rattle.ocpi_json.specs.Folded.{folded};

    ghost eq = { on folded (pointwise ◌==◌) };

    ghost laws = { Prim.search (comparing, rules) };

    fn eq(&self, other: &CiText<MOST>) -> bool {
        self.cells == other.cells || self.is_folded_like(other)
    }
}

impl<const MOST: usize> Eq for CiText<MOST> {
    ghost use Rattle.std.proofs.Common.{rules};
    ghost use Rattle.std.specs.Cmp.Rules.{comparing};

    ghost laws = { Prim.search (comparing, rules) };
}

impl<const MOST: usize> Ord for CiText<MOST> {
    ghost use Rattle.std.proofs.Common.{rules};
    ghost use Rattle.std.specs.Cmp.Rules.{comparing};
    ghost use Rattle.std.specs.Cmp.Lexicographic.{slice_cmp};
    ghost use Rattle.std.specs.Ordering.{on, nat_cmp};
    ghost use Rattle.ocpi_json.specs.Folded.{folded};

    ghost cmp = { on folded (slice_cmp nat_cmp) };

    ghost total = { Prim.search (comparing, rules) };

    ghost matches_partial_cmp = { Prim.search (comparing, rules) };

    ghost matches_eq = { Prim.search (comparing, rules) };

    fn cmp(&self, other: &CiText<MOST>) -> Ordering {
        folded_cmp(self.as_str().as_bytes(), other.as_str().as_bytes())
    }
}

impl<const MOST: usize> PartialOrd for CiText<MOST> {
    ghost use Rattle.std.proofs.Common.{rules};
    ghost use Rattle.std.specs.Cmp.Rules.{comparing};
    ghost use Rattle.std.specs.Cmp.{partial_order_from_own_ties};
    ghost use Rattle.std.specs.Cmp.Lexicographic.{slice_cmp};
    ghost use Rattle.std.specs.Ordering.{on, nat_cmp, as_partial_cmp};
    ghost use Rattle.ocpi_json.specs.Folded.{folded};

    ghost partial_cmp = { as_partial_cmp (on folded (slice_cmp nat_cmp)) };

    ghost laws = { partial_order_from_own_ties (Prim.search (comparing, rules)) (Prim.search (comparing, rules)) };

    fn partial_cmp(&self, other: &CiText<MOST>) -> Option<Ordering> {
        Some(self.cmp(other))
    }
}

impl<const MOST: usize> Hash for CiText<MOST> {
    ghost use Rattle.std.specs.Prelude.{[], ◌∷◌};
    ghost use Rattle.std.proofs.Common.{rules};
    ghost use Rattle.std.specs.Cmp.Rules.{hashing};
    ghost use Rattle.ocpi_json.specs.Folded.{folded};
    ghost use Rattle.ocpi_json.specs.Inner.Cells.{padded};

    ghost hash_input = { λ t. padded MOST (folded t) ∷ [] };

    ghost respects_eq = { Prim.search (hashing, rules) };

    #[inline(always)]
    fn hash<H: Hasher>(&self, state: &mut H) {
        state.write(&self.folded_cells());
    }
}
