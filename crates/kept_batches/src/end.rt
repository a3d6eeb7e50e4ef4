/// What comes after the last batch of a file, and so what a repair has to do.
#[derive(Clone, Copy)]
pub(crate) enum End {
    /// The shut mark, and nothing after it.
    Whole,
    /// The shut mark, and more after it, which does not count.
    Torn,
    /// The shut mark after a batch whose own mark, at `mark`, is neither open nor shut.
    Unmarked { mark: usize, first_is_shut: bool },
    /// No more than a part of the first mark.
    Unbegun,
}
