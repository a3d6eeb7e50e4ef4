/// Where an entry of a book or of an account stands.
#[derive(Clone, Copy, PartialEq, Eq)]
pub struct Place {
    /// The number of the operator or provider in the configuration, from 0.
    pub party: usize,
    /// The number of the entry in its book or account, from 0.
    pub entry: usize,
}

/// What the order keeps of an event.
#[derive(Clone, Copy, PartialEq, Eq)]
pub enum OrderEntry {
    InBook { book: Place },
    InAccount { account: Place },
    InBoth { book: Place, account: Place },
    /// The current period ends.
    Close,
}
