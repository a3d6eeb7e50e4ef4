/// A point at which a call may be paused. Operators and providers are numbered from 0, in the order of the configuration.
#[derive(Clone, Copy, Debug, PartialEq, Eq)]
pub enum Waypoint {
    /// The operator's book is held.
    BookHeld(usize),
    /// The provider's account is held.
    AccountHeld(usize),
    /// The operator's book is taken next, to be read by a close or a statement.
    Collecting(usize),
}

/// What is told where calls are, and may hold them up there.
pub trait Gate {
    /// The call of the pass of that number is at the waypoint.
    fn at(&self, pass: usize, waypoint: Waypoint);
}

/// A gate that lets every call go on.
pub struct NoGate;

impl Gate for NoGate {
    fn at(&self, _pass: usize, _waypoint: Waypoint) {}
}
