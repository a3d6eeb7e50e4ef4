//! Which CDRs are credited, and which periods are settled.

ghost use Rattle.std.specs.Prelude.{◌≡◌, ◌<◌, ◌≤◌, [], true, cond, OnOk};
ghost use Rattle.indexmap.specs.IndexSet.{contains, spare};
ghost use Rattle.provider_account.specs.Inner.DebtKeys.{same_cdr, same_period};
ghost use Rattle.provider_account.specs.Inner.Ended.{KnowsEnded, has_ended};

use super::debt_keys::{CdrKey, PeriodKey};
use indexmap::IndexSet;
use plain_house::Charge;
use std::alloc::{AllocError, Global};

/// What ends debts.
#[derive(Drop)]
pub(crate) struct Ended {
    pub credited: IndexSet<CdrKey>,
    pub settled: IndexSet<PeriodKey>,
}

impl Ended {
    pub(crate) fn new(alloc: Global) -> Ended
        ensures { KnowsEnded result [] }
    {
        Ended {
            credited: IndexSet::new(alloc),
            settled: IndexSet::new(alloc),
        }
    }

    /// Room for one more credit or settlement.
    pub(crate) fn reserve(&mut self) -> Result<(), AllocError>
        ensures credited { self.new.credited.keys ≡ self.old.credited.keys }
        ensures settled { self.new.settled.keys ≡ self.old.settled.keys }
        ensures ok_credited { OnOk result (0 < spare self.new.credited) }
        ensures ok_settled { OnOk result (0 < spare self.new.settled) }
        ensures room_credited { spare self.old.credited ≤ spare self.new.credited }
        ensures room_settled { spare self.old.settled ≤ spare self.new.settled }
    {
        self.credited.reserve(1)?;
        self.settled.reserve(1)
    }

    pub(crate) fn is_settled(&self, period: &PeriodKey) -> bool
        ensures { result ≡ contains same_period self.now.settled period.now }
    {
        self.settled.contains(period)
    }

    /// The charge is credited or settled.
    pub(crate) fn has_ended(&self, charge: &Charge) -> bool
        ensures { result ≡ has_ended self.now charge.now }
    {
        self.credited.contains(&CdrKey::of(charge)) || self.settled.contains(&PeriodKey::of(charge))
    }

    pub(crate) fn credit(&mut self, cdr: &CdrKey)
        requires { 0 < spare self.old.credited }
        ensures credited { (key : CdrKey) → contains same_cdr self.new.credited key ≡ cond (same_cdr cdr.now key) true (contains same_cdr self.old.credited key) }
        ensures settled { self.new.settled ≡ self.old.settled }
    {
        self.credited.insert(*cdr).unwrap();
    }

    pub(crate) fn settle(&mut self, period: &PeriodKey)
        requires { 0 < spare self.old.settled }
        ensures settled { (key : PeriodKey) → contains same_period self.new.settled key ≡ cond (same_period period.now key) true (contains same_period self.old.settled key) }
        ensures credited { self.new.credited ≡ self.old.credited }
    {
        self.settled.insert(*period).unwrap();
    }
}
