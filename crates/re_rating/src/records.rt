use exact_money::Amount;
use ocpi_types::{Cdr, Shared};

/// A CDR and the amount at which it was booked.
#[derive(Drop)]
pub struct Record {
    pub cdr: Shared<Cdr>,
    pub booked: Amount,
}

/// A record that is not rated at what was booked.
#[derive(Clone, Copy, PartialEq, Eq)]
pub struct Difference {
    /// The record's place in the list, from 0.
    pub index: u64,
    pub booked: Amount,
    /// What the record is rated at; `None` where it cannot be rated.
    pub rated: Option<Amount>,
}
