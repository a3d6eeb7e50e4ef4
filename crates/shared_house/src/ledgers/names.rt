//! The names of the ledgers of a house, one of which also stands for its configuration.

ghost use Rattle.std.specs.Prelude.{ℕ};

use std::marker::Brand;
use std::sync::ledger::Ledger;

/// A ledger with so many parts: one for each operator, for each provider, or for each pass.
pub trait Part: Ledger {
    ghost all: { ℕ };
}

impl Part for Brand {
    ghost all = { 0 };
}

/// A ledger that also stands for the configuration of its house.
pub trait Configured: Part {
    ghost use Rattle.ocpi_types.specs.declared.config.Config.{Config};

    ghost config: { Config };
}

impl Configured for Brand {
    ghost use Rattle.shared_house.specs.Names.{no_config};

    ghost config = { no_config };
}

/// The five ledgers of a house: entries and amounts over its books, the same over its accounts, and events over its passes.
pub trait Names {
    type BookEntries: Configured;

    type BookAmounts: Part;

    type AccountEntries: Part;

    type AccountAmounts: Part;

    type Events: Part;
}

impl<B: Configured, X: Part, A: Part, Y: Part, E: Part> Names for (B, X, A, Y, E) {
    type BookEntries = B;

    type BookAmounts = X;

    type AccountEntries = A;

    type AccountAmounts = Y;

    type Events = E;
}
