/// What a call does next.
#[derive(Clone, Copy, PartialEq, Eq)]
pub enum Action {
    /// The call starts.
    Begin,
    /// Takes the free lock of its operator's book.
    TakeBook,
    /// Takes the free lock of its provider's account.
    TakeAccount,
    /// Decides, and adds one event to the order or none.
    Order,
    /// Writes what was decided into the account, and gives its lock back.
    PutAccount,
    /// Writes what was decided into the book, and gives its lock back.
    PutBook,
    /// Reads the free book of the operator of this number.
    Collect { operator: usize },
    /// Gives all locks back; the call ends without a reply.
    Abandon,
    /// The reply is given.
    End,
}

/// One call takes one step.
#[derive(Clone, Copy, PartialEq, Eq)]
pub struct Step {
    /// The number of the call, from 0.
    pub call: usize,
    pub action: Action,
}
