//! The new ledgers of a house.

use ocpi_types::Config;
use std::sync::ledger::Blank;

/// The five new ledgers of a house, which no type stands for yet.
#[derive(Drop)]
pub struct Blanks {
    /// One part for each operator.
    pub book_entries: Blank,
    pub book_amounts: Blank,
    /// One part for each provider.
    pub account_entries: Blank,
    pub account_amounts: Blank,
    /// One part for each pass.
    pub events: Blank,
}

impl Blanks {
    ghost use Rattle.std.specs.Prelude.{◌≡◌, length};

    /// New ledgers of a house of this configuration and of so many passes.
    pub fn new(config: &Config, passes: usize) -> Blanks
        ensures books { (result.book_entries.parts ≡ length config.now.operators) × (result.book_amounts.parts ≡ length config.now.operators) }
        ensures accounts { (result.account_entries.parts ≡ length config.now.providers) × (result.account_amounts.parts ≡ length config.now.providers) }
        ensures events { result.events.parts ≡ passes }
    {
        let operators = config.operators.as_slice().len() as u64;
        let providers = config.providers.as_slice().len() as u64;
        Blanks {
            book_entries: Blank::new(operators),
            book_amounts: Blank::new(operators),
            account_entries: Blank::new(providers),
            account_amounts: Blank::new(providers),
            events: Blank::new(passes as u64),
        }
    }
}
