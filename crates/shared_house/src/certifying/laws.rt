//! What follows from the definitions.

ghost use Rattle.shared_house.specs.Certified.{CertifiedIsUnique, CertifiedIsWhole};
ghost use Rattle.shared_house.specs.History.{PassesSeeTheirEvents};
ghost use Rattle.shared_house.specs.Promises.{HistoriesKeepPromises};

use period_order::resolving_is_unique;
use plain_house::{
    legal_cdrs_are_charged, legal_credits_are_taken_back, legal_lists_keep_limits,
    legal_positions_balance,
};

/// What is certified is torn nowhere.
pub fn certified_is_whole()
    ensures { CertifiedIsWhole }
{
    resolving_is_unique();
}

/// No other events than those are certified.
pub fn certified_is_unique()
    ensures { CertifiedIsUnique }
{
    resolving_is_unique();
}

/// In one history a call stands behind at least as many events as its pass has added before it.
pub fn passes_see_their_events()
    ensures { PassesSeeTheirEvents }
{}

/// One history keeps the limits at any time, books each CDR once and at its price, credits it once, and balances.
pub fn histories_keep_promises()
    ensures { HistoriesKeepPromises }
{
    legal_lists_keep_limits();
    legal_cdrs_are_charged();
    legal_credits_are_taken_back();
    legal_positions_balance();
}
