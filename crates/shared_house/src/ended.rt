//! What a house leaves behind.

ghost use Rattle.std.specs.Prelude.{◌≡◌, ℕ, Err, map, IfOk};
ghost use Rattle.period_order.specs.Resolved.{entries_of_accounts, entries_of_books};
ghost use Rattle.shared_house.specs.Certified.{IsCertified, IsTornFirst};
ghost use Rattle.shared_house.specs.Points.{AreAllAdmitted};
ghost use Rattle.shared_house.specs.declared.certifying.CertifyFault.TheVariants as fault;

use crate::call::Call;
use crate::certifying::{CertifyFault, certify};
use crate::gathered::Gathered;
use ocpi_types::Config;
use plain_house::Event;
use std::alloc::Global;
use std::thread::Threads;

/// The events of a house, and the calls of each of its passes with what they returned, the first one first.
#[derive(Drop)]
pub struct Ended {
    pub events: Vec<Event>,
    pub calls: Vec<Vec<Call>>,
}

impl Ended {
    /// The calls of all passes with the events that the order names, where they are one history.
    pub(crate) fn certified<R: Threads + Sync>(
        rt: &R,
        alloc: Global,
        config: &Config,
        gathered: Gathered,
    ) -> Result<Ended, CertifyFault>
        requires { AreAllAdmitted config.now (map (λ pass. pass.items) gathered.calls.items) }
        ensures calls { IfOk result (λ ended. ended.calls ≡ gathered.calls) }
        ensures ok { IfOk result (λ ended. IsCertified config.now (entries_of_books gathered.books.items) (entries_of_accounts gathered.accounts.items)
            gathered.entries.items (map (λ pass. pass.items) gathered.calls.items) ended.events.items) }
        ensures torn { (entry : ℕ) → result ≡ Err (fault.Torn entry) → IsTornFirst config.now (entries_of_books gathered.books.items)
            (entries_of_accounts gathered.accounts.items) gathered.entries.items (map (λ pass. pass.items) gathered.calls.items) entry }
    {
        let Gathered {
            entries,
            books,
            accounts,
            calls,
        } = gathered;
        let certified = certify(
            rt,
            alloc,
            config,
            entries.as_slice(),
            books.as_slice(),
            accounts.as_slice(),
            calls.as_slice(),
        );
        match certified {
            Ok(events) => Ok(Ended { events, calls }),
            Err(fault) => Err(fault),
        }
    }
}
