//! The end of a house.

ghost use Rattle.std.specs.Prelude.{◌≡◌, ◌≢◌, ◌<◌, ◌≤◌, ◌↔◌, ℕ, Ok, Err, map, vec_len, IfOk};
ghost use Rattle.shared_house.specs.Finished.{IsFinished, IsTornInEnd};
ghost use Rattle.shared_house.specs.declared.certifying.CertifyFault.TheVariants as certify_fault;
ghost use Rattle.shared_house.specs.declared.finishing.FinishFault.TheVariants as fault;

use crate::certifying::CertifyFault;
use crate::ended::Ended;
use crate::gathered::gather_locks;
use crate::house::House;
use crate::ledgers::{Configured, Names, Part};
use crate::pass::Pass;
use std::alloc::{AllocError, Global};
use std::thread::Threads;
use thiserror::Error;

/// Why a house ends without its events.
#[derive(Clone, Copy, Debug, PartialEq, Eq, Error)]
pub enum FinishFault {
    /// Fewer passes came back than were made.
    #[error("finish: missing pass")]
    MissingPass,
    /// The least number at which an entry of the order names no event, or the history breaks.
    #[error("finish: torn at {entry}")]
    Torn { entry: u64 },
    #[error("no memory")]
    NoMemory,
}

impl From<AllocError> for FinishFault {
    ghost use Rattle.std.specs.Prelude.{◌≡◌};
    ghost use Rattle.shared_house.specs.declared.finishing.FinishFault.TheVariants.{NoMemory};

    ghost from_gives = { λ _ e. e ≡ NoMemory };

    fn from(_error: AllocError) -> FinishFault {
        FinishFault::NoMemory
    }
}

// How a house ends of which this is certified.
fn finished(certified: Result<Ended, CertifyFault>) -> Result<Ended, FinishFault>
    ensures missing { result ≢ Err fault.MissingPass }
    ensures ok { IfOk result (λ ended. certified ≡ Ok ended) }
    ensures torn { (entry : ℕ) → result ≡ Err (fault.Torn entry) → certified ≡ Err (certify_fault.Torn entry) }
{
    match certified {
        Ok(ended) => Ok(ended),
        Err(CertifyFault::Torn { entry }) => Err(FinishFault::Torn { entry }),
        Err(CertifyFault::NoMemory) => Err(FinishFault::NoMemory),
    }
}

impl<N: Names> House<N> {
    // What is certified of the house and these passes.
    fn certified<R: Threads + Sync>(
        self,
        rt: &R,
        alloc: Global,
        passes: Vec<Pass<N>>,
    ) -> Result<Ended, CertifyFault>
        requires book_parts { (N.BookEntries.all ≡ N.BookEntries.parts) × (N.BookAmounts.all ≡ N.BookAmounts.parts) }
        requires account_parts { (N.AccountEntries.all ≡ N.AccountEntries.parts) × (N.AccountAmounts.all ≡ N.AccountAmounts.parts) }
        requires pass_parts { N.Events.all ≡ N.Events.parts }
        requires all { N.Events.all ≤ vec_len passes }
        ensures calls { IfOk result (λ ended. map (λ calls. calls.items) ended.calls.items ≡ map (λ pass. pass.calls) passes.items) }
        ensures ok { IfOk result (λ ended. IsFinished N.BookEntries.config (map (λ pass. pass.calls) passes.items) ended.events.items) }
        ensures torn { (entry : ℕ) → result ≡ Err (certify_fault.Torn entry) → IsTornInEnd N.BookEntries.config (map (λ pass. pass.calls) passes.items) entry }
    {
        let (config, locks) = self.into_parts();
        let gathered = gather_locks(alloc, locks, passes)?;
        Ended::certified(rt, alloc, &config, gathered)
    }

    /// The events of the house and the calls of its passes, where they are one history. The house is gone then, and so it is
    /// after a fault.
    ///
    /// `MissingPass` where fewer passes come back than were made, and only there; `Torn` with the least number at which an entry
    /// of the order names no event, or a call or an event of that number breaks the history.
    pub fn finish<R: Threads + Sync>(
        self,
        rt: &R,
        alloc: Global,
        passes: Vec<Pass<N>>,
    ) -> Result<Ended, FinishFault>
        requires book_parts { (N.BookEntries.all ≡ N.BookEntries.parts) × (N.BookAmounts.all ≡ N.BookAmounts.parts) }
        requires account_parts { (N.AccountEntries.all ≡ N.AccountEntries.parts) × (N.AccountAmounts.all ≡ N.AccountAmounts.parts) }
        requires pass_parts { N.Events.all ≡ N.Events.parts }
        ensures missing { (result ≡ Err fault.MissingPass) ↔ (vec_len passes < N.Events.all) }
        ensures calls { IfOk result (λ ended. map (λ calls. calls.items) ended.calls.items ≡ map (λ pass. pass.calls) passes.items) }
        ensures ok { IfOk result (λ ended. IsFinished N.BookEntries.config (map (λ pass. pass.calls) passes.items) ended.events.items) }
        ensures torn { (entry : ℕ) → result ≡ Err (fault.Torn entry) → IsTornInEnd N.BookEntries.config (map (λ pass. pass.calls) passes.items) entry }
    {
        if passes.len() < self.passes {
            return Err(FinishFault::MissingPass);
        }
        finished(self.certified(rt, alloc, passes))
    }
}
