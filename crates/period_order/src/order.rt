//! The order of events.

ghost use Rattle.std.specs.Prelude.{◌≡◌};

use super::order_entry::OrderEntry;
use ocpi_types::{Config, Refusal, Store};
use std::alloc::{AllocError, Global};
use std::marker::Model;

/// The order of events, and the current period.
#[derive(Drop)]
pub struct Order {
    entries: Vec<OrderEntry>,
    period: u64,
    has_room: bool,
}

impl Model for Order {
    ghost use Rattle.std.specs.Prelude.{◌≡◌, ◌<◌, true, count_by, vec_len, vec_capacity};
    ghost use Rattle.period_order.specs.Order.{PlainOrder, is_close_entry};

    ghost Value = { PlainOrder };

    ghost view = { λ order. record { entries = order.entries.items; has_room = order.has_room } };

    ghost invariant = { λ order. (order.period ≡ count_by is_close_entry order.entries.items)
        × (order.has_room ≡ true → vec_len order.entries < vec_capacity order.entries) };
}

impl Order {
    ghost use Rattle.std.specs.Prelude.{◌≡◌, ◌-◌, [], ◌∷◌, ◌++◌, true, false, OnOk, OnErr};
    ghost use Rattle.ocpi_types.specs.declared.refusal.Store.TheVariants as store;
    ghost use Rattle.period_order.specs.declared.order_entry.OrderEntry.TheVariants as entry;
    ghost use Rattle.period_order.specs.Order.{current_of, cut, is_close_entry, order_cut, point_of};
    ghost use Rattle.plain_house.specs.Full.{are_periods_full, first_full, is_order_full};

    /// An order without entries.
    pub fn new(alloc: Global) -> Order
        ensures { result ≡ record { entries = []; has_room = false } }
    {
        Order {
            entries: Vec::new(alloc),
            period: 0,
            has_room: false,
        }
    }

    /// What the order keeps of each event, the first event first.
    pub fn entries(&self) -> &[OrderEntry]
        ensures { result.now ≡ self.now.entries }
    {
        self.entries.as_slice()
    }

    /// The same, taken out of the order.
    pub fn into_entries(self) -> Vec<OrderEntry>
        ensures { result.items ≡ self.entries }
    {
        self.entries
    }

    /// The number of events so far.
    pub fn point(&self) -> u64
        ensures { result ≡ point_of self.now }
    {
        self.entries.len() as u64
    }

    /// The current period.
    pub fn current(&self) -> u64
        ensures { result ≡ current_of self.now }
    {
        self.period
    }

    /// The period that was current before the last entry, which is this one.
    pub(crate) fn period_before(&self, last: OrderEntry) -> u64
        ensures closed { last ≡ entry.Close → result ≡ current_of self.now - 1 }
        ensures other { (last ≡ entry.Close → ⊥) → result ≡ current_of self.now }
    {
        match last {
            OrderEntry::Close => self.period.saturating_sub(1),
            OrderEntry::InBook { .. } | OrderEntry::InAccount { .. } | OrderEntry::InBoth { .. } =>
                self.period,
        }
    }

    /// There are as many events as the configuration allows.
    pub fn is_full(&self, config: &Config) -> bool
        ensures { result ≡ is_order_full config.now (point_of self.now) }
    {
        config.limits.order.get() <= self.point()
    }

    /// As many periods are closed as the configuration allows.
    pub fn are_periods_full(&self, config: &Config) -> bool
        ensures { result ≡ are_periods_full config.now (current_of self.now) }
    {
        config.limits.periods.get() <= self.current()
    }

    /// Makes room for one more entry. Where memory is refused, the order is as before.
    pub fn reserve(&mut self) -> Result<(), AllocError>
        ensures ok { OnOk result (self.new ≡ record { entries = self.old.entries; has_room = true }) }
        ensures err { OnErr result (self.new ≡ self.old) }
    {
        self.entries.reserve(1)?;
        self.has_room = true;
        Ok(())
    }

    /// Adds what is kept of an event that is no close, without taking memory.
    pub fn append(&mut self, entry: OrderEntry)
        requires room { self.old.has_room ≡ true }
        requires stays { is_close_entry entry ≡ false }
        ensures { self.new ≡ record { entries = self.old.entries ++ entry ∷ []; has_room = false } }
    {
        let _ = self.entries.push(entry);
        self.has_room = false;
    }

    /// Adds what is kept of any event, without taking memory.
    pub(crate) fn add(&mut self, entry: OrderEntry)
        requires { self.old.has_room ≡ true }
        ensures { self.new ≡ record { entries = self.old.entries ++ entry ∷ []; has_room = false } }
    {
        match entry {
            OrderEntry::Close => self.close(),
            OrderEntry::InBook { .. } | OrderEntry::InAccount { .. } | OrderEntry::InBoth { .. } =>
                self.append(entry),
        }
    }

    // Closes the current period, without taking memory.
    fn close(&mut self)
        requires { self.old.has_room ≡ true }
        ensures { self.new ≡ record { entries = self.old.entries ++ entry.Close ∷ []; has_room = false } }
    {
        let _ = self.entries.push(OrderEntry::Close);
        self.period += 1;
        self.has_room = false;
    }

    // The store that is full, the order first, where a period cannot be closed.
    fn full_for_close(&self, config: &Config) -> Option<Store>
        ensures { result ≡ first_full ((store.Order, is_order_full config.now (point_of self.now))
            ∷ (store.Periods, are_periods_full config.now (current_of self.now)) ∷ []) }
    {
        if self.is_full(config) {
            return Some(Store::Order);
        }
        if self.are_periods_full(config) {
            return Some(Store::Periods);
        }
        None
    }

    /// Closes the period, without taking memory, and gives the number of events before its end.
    ///
    /// `NotCurrent` where it is not the current one, `Full` where there are as many events, or as many closed periods, as
    /// the configuration allows; the order is then as before.
    pub fn cut(&mut self, config: &Config, period: u64) -> Result<u64, Refusal>
        requires { self.old.has_room ≡ true }
        ensures point { result ≡ cut config.now period self.old }
        ensures order { self.new ≡ order_cut self.old (cut config.now period self.old) }
    {
        let current = self.current();
        if period != current {
            return Err(Refusal::NotCurrent { current });
        }
        if let Some(what) = self.full_for_close(config) {
            return Err(Refusal::Full { what });
        }
        let point = self.point();
        self.close();
        Ok(point)
    }
}
