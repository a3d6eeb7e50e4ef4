//! What a program shows of the lines of a store while they are answered again, and keeps of what is cut off.

/// Sees how far a store is answered again.
pub trait Watch {
    /// A line of so many bytes was counted.
    fn counted(&mut self, bytes: usize);
    /// A line of so many bytes was answered. All lines were counted before the first one is answered.
    fn answered(&mut self, bytes: usize);
    /// The file has these bytes from `at` on, which were never acknowledged and will be cut off. Returns whether that may be.
    fn torn(&mut self, at: usize, bytes: &[u8]) -> bool;
}

/// Shows nothing.
#[derive(Clone, Copy)]
pub struct Unwatched;

impl Watch for Unwatched {
    fn counted(&mut self, _bytes: usize) {}

    fn answered(&mut self, _bytes: usize) {}

    fn torn(&mut self, _at: usize, _bytes: &[u8]) -> bool {
        true
    }
}
