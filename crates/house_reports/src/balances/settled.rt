//! Settlements, found by provider, currency and period.

ghost use Rattle.std.specs.Prelude.{◌≡◌};
ghost use Rattle.house_reports.specs.balances.Inner.Settled.{key_by, key_of};

use super::booking::Booking;
use cdr_checks::Settlement;
use indexmap::IndexSet;
use ocpi_types::{Currency, Party};
use std::alloc::{AllocError, Global};
use std::marker::Model;

/// By what a settlement is found.
#[derive(Clone, Copy, PartialEq, Eq, Hash)]
struct SettledKey {
    provider: Party,
    currency: Currency,
    period: u64,
}

fn key_by(settlement: &Settlement) -> SettledKey
    ensures { result ≡ key_by settlement.now }
{
    SettledKey {
        provider: settlement.provider,
        currency: settlement.currency,
        period: settlement.period,
    }
}

fn key_of(booking: &Booking) -> SettledKey
    ensures { result ≡ key_of booking.now }
{
    SettledKey {
        provider: booking.provider,
        currency: booking.currency,
        period: booking.period,
    }
}

/// A list of settlements.
#[derive(Drop)]
pub struct Settlements {
    list: Vec<Settlement>,
    keys: IndexSet<SettledKey>,
}

impl Model for Settlements {
    ghost use Rattle.std.specs.Prelude.{List};
    ghost use Rattle.cdr_checks.specs.declared.request.Settlement.{Settlement as ASettlement};
    ghost use Rattle.house_reports.specs.balances.Inner.Settled.{HasKeys};

    ghost Value = { List ASettlement };

    ghost view = { λ settlements. settlements.list.items };

    ghost invariant = { λ settlements. HasKeys settlements.keys settlements.list.items };
}

impl Settlements {
    ghost use Rattle.std.specs.Prelude.{◌≡◌, [], ◌∷◌, ◌++◌, OnErr, OnOk};
    ghost use Rattle.house_reports.specs.balances.Bookings.{is_settled};

    /// Returns an empty list.
    pub fn new(alloc: Global) -> Settlements
        ensures { result ≡ [] }
    {
        Settlements {
            list: Vec::new(alloc),
            keys: IndexSet::new(alloc),
        }
    }

    /// Adds a settlement to the end of the list.
    ///
    /// # Errors
    ///
    /// If an allocation fails, the list is as before.
    #[tactic(auto, using(crate::proofs::balances::KeyLemmas::has_more))]
    pub fn push(&mut self, settlement: &Settlement) -> Result<(), AllocError>
        ensures ok { OnOk result (self.new ≡ self.old ++ settlement.now ∷ []) }
        ensures err { OnErr result (self.new ≡ self.old) }
    {
        self.keys.reserve(1)?;
        self.list.reserve(1)?;
        self.keys.insert(key_by(settlement)).unwrap();
        self.list.push(*settlement).unwrap();
        Ok(())
    }

    /// Returns whether one of the settlements is of the booking's provider, currency and period.
    #[tactic(auto, using(crate::proofs::balances::KeyLemmas::found_by_key))]
    pub fn is_settled(&self, booking: &Booking) -> bool
        ensures { result ≡ is_settled self.now booking.now }
    {
        self.keys.contains(&key_of(booking))
    }
}
