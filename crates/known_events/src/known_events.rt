use crate::keys::{CreditedKey, EndKey, OwnKey, credited_key, end_key, hold_key, own_key};
use crate::places::{lesser, put};
use cdr_checks::{Authorize, Release, Settlement};
use ocpi_json::ci_text::CiText;
use ocpi_types::laws::same_tariffs_are_equal_folded;
use ocpi_types::{Cdr, Party, Tariff};
use operator_book::Places;
use plain_house::{BookedCdr, Event, Hold, booked_in, is_registered_by_any, period_after};
use std::alloc::{AllocError, Global};
use std::marker::Model;

/// A list of events, with the place of the first event of each key.
pub struct KnownEvents {
    list: Vec<Event>,
    /// By what events add.
    own: Places<OwnKey>,
    /// By the CDRs that events credit.
    credited: Places<CreditedKey>,
    /// By the holds that events end, of the events after the hold.
    ended: Places<EndKey>,
    /// The period of each event.
    periods: Vec<u64>,
    /// The current period.
    period: u64,
}

// Not derived: what is derived is proved anew in each crate that drops one.
impl Drop for KnownEvents {
    fn drop(self) {
        let KnownEvents {
            list: _,
            own: _,
            credited: _,
            ended: _,
            periods: _,
            period: _,
        } = self;
    }
}

impl Model for KnownEvents {
    ghost use Rattle.std.specs.Prelude.{◌≡◌, List};
    ghost use Rattle.plain_house.specs.Entries.{period_of};
    ghost use Rattle.plain_house.specs.declared.event.Event.{Event as AnEvent};
    ghost use Rattle.known_events.specs.Inner.Firsts.{FindsFirst, FindsFirstAfter, adds, credits, ends_by, gives_for, same_credited, same_end, same_own};
    ghost use Rattle.known_events.specs.Inner.Periods.{periods_of};

    ghost Value = { List AnEvent };

    ghost view = { λ known. known.list.items };

    ghost invariant = { λ known. FindsFirst same_own adds known.own.firsts known.list.items
        × FindsFirst same_credited credits known.credited.firsts known.list.items
        × FindsFirstAfter same_end gives_for ends_by known.ended.firsts known.list.items
        × (known.periods.items ≡ periods_of known.list.items)
        × (known.period ≡ period_of known.list.items) };
}

impl KnownEvents {
    ghost use Rattle.std.specs.Prelude.{◌≡◌, ℕ, [], ◌∷◌, ◌++◌, not, position, option_copied, option_map, slice_get, OnOk, OnErr};
    ghost use Rattle.std.specs.List.{list_any};
    ghost use Rattle.plain_house.specs.Booked.{booked_as, shown_booked};
    ghost use Rattle.plain_house.specs.Entries.{book_entries, period_of};
    ghost use Rattle.plain_house.specs.Happened.{books, ends, gives, puts, registers, settles, stores, takes_back};
    ghost use Rattle.cdr_checks.specs.declared.request.Release.{Release};
    ghost use Rattle.known_events.specs.After.{IsFirstGiven, position_after};
    ghost use Rattle.known_events.specs.Inner.Firsts.{key_if_given};

    /// Returns an empty list.
    pub fn new(alloc: Global) -> KnownEvents
        ensures { result ≡ [] }
    {
        KnownEvents {
            list: Vec::new(alloc),
            own: Places::new(alloc),
            credited: Places::new(alloc),
            ended: Places::new(alloc),
            periods: Vec::new(alloc),
            period: 0,
        }
    }

    /// Adds an event to the end of the list.
    ///
    /// # Errors
    ///
    /// If an allocation fails, the list is as before.
    pub fn push(&mut self, event: Event) -> Result<(), AllocError>
        ensures ok { OnOk result (self.new ≡ self.old ++ event ∷ []) }
        ensures err { OnErr result (self.new ≡ self.old) }
    {
        let ended = self.key_if_given(&event);
        self.own.reserve(1)?;
        self.credited.reserve(1)?;
        self.ended.reserve(1)?;
        self.periods.reserve(1)?;
        self.list.reserve(1)?;
        let place = self.list.len();
        put(&mut self.own, own_key(&event), place);
        put(&mut self.credited, credited_key(&event), place);
        put(&mut self.ended, ended, place);
        self.periods.push(self.period).unwrap();
        self.period = period_after(self.period, &event);
        self.list.push(event).unwrap();
        Ok(())
    }

    // The key of the hold that the event ends, if one of the events gives a hold of that provider and reference.
    fn key_if_given(&self, event: &Event) -> Option<EndKey>
        ensures { result ≡ key_if_given self.now event.now }
    {
        let key = end_key(event)?;
        let given = self.own.get(&hold_key(&key));
        if given.is_some() { Some(key) } else { None }
    }

    /// Returns the events, in the order in which they were added.
    pub fn as_slice(&self) -> &[Event]
        ensures { result.now ≡ self.now }
    {
        self.list.as_slice()
    }

    /// Returns the event at this place, if there is one.
    pub fn get(&self, at: usize) -> Option<&Event>
        ensures { option_copied result ≡ slice_get self.now at }
    {
        self.list.get(at)
    }

    /// Returns the current period, which is the number of closes.
    pub fn period(&self) -> u64
        ensures { result ≡ period_of self.now }
    {
        self.period
    }

    /// Returns the first event that books a CDR or Credit CDR of that operator and id.
    pub fn booked_at(&self, operator: &Party, id: &CiText<39>) -> Option<usize>
        ensures { result ≡ position (books operator.now id.now) self.now }
    {
        self.own.get(&OwnKey::Cdr {
            operator: *operator,
            id: *id,
        })
    }

    /// Returns the CDR or Credit CDR of that operator and id, with its amount and period.
    pub fn booked_as(&self, operator: &Party, id: &CiText<39>) -> Option<BookedCdr<'_>>
        ensures { option_map shown_booked result ≡ booked_as operator.now id.now (book_entries self.now) }
    {
        let at = self.booked_at(operator, id)?;
        let events = self.list.as_slice();
        let periods = self.periods.as_slice();
        booked_in(&events[at], periods[at])
    }

    /// Returns the first event that books a CDR or Credit CDR that credits the CDR of that operator and id.
    pub fn credited_at(&self, operator: &Party, id: &CiText<39>) -> Option<usize>
        ensures { result ≡ position (takes_back operator.now id.now) self.now }
    {
        self.credited.get(&CreditedKey {
            operator: *operator,
            id: *id,
        })
    }

    /// Returns the first event that opens a hold of the release's provider and reference.
    pub fn authorised_at(&self, release: &Release) -> Option<usize>
        ensures { result ≡ position (gives release.now) self.now }
    {
        self.own.get(&OwnKey::Hold {
            provider: release.provider,
            reference: release.reference,
        })
    }

    /// Returns the first event that ends the hold: its release, or the CDR that uses it up. Only events after the first hold of the
    /// provider and reference count.
    pub fn ended_at(&self, hold: &Hold) -> Option<usize>
        ensures { (release : Release) (at : ℕ) → IsFirstGiven self.now release at hold.now → result ≡ position_after (ends hold.now) at self.now }
    {
        let released = self.ended.get(&EndKey::Release {
            operator: hold.operator,
            provider: hold.provider,
            reference: hold.reference,
        });
        let used = self.ended.get(&EndKey::Use {
            operator: hold.operator,
            provider: hold.provider,
            currency: hold.currency,
            reference: hold.reference,
        });
        lesser(released, used)
    }

    /// Returns the first event that settles that period of the provider in the currency.
    pub fn settled_at(&self, settlement: &Settlement) -> Option<usize>
        ensures { result ≡ position (settles settlement.now) self.now }
    {
        self.own.get(&OwnKey::Settlement {
            provider: settlement.provider,
            currency: settlement.currency,
            period: settlement.period,
        })
    }

    /// Returns the first event that puts a token of the request's provider and uid, of any type.
    pub fn put_at(&self, ask: &Authorize) -> Option<usize>
        ensures { result ≡ position (puts ask.now) self.now }
    {
        self.own.get(&OwnKey::Token {
            provider: ask.provider,
            uid: ask.uid,
        })
    }

    /// Returns the first event that stores a version of the tariff's operator, id and moment.
    pub fn stored_at(&self, tariff: &Tariff) -> Option<usize>
        ensures { result ≡ position (stores tariff.now) self.now }
    {
        self.own.get(&OwnKey::Version {
            operator: tariff.operator,
            id: tariff.id,
            last_updated: tariff.last_updated,
        })
    }

    // Whether an event stores a version of the operator with the content of the tariff. The first event that stores the version of
    // the tariff's operator, id and moment decides, unless its content differs: only then are the later events scanned.
    fn is_registered(&self, operator: &Party, tariff: &Tariff) -> bool
        ensures { result ≡ list_any (registers operator.now tariff.now) self.now }
    {
        same_tariffs_are_equal_folded();
        match self.stored_at(tariff) {
            Some(at) => is_registered_by_any(&self.list.as_slice()[at..], operator, tariff),
            None => false,
        }
    }

    /// Returns the first tariff of the CDR that no event stores as a version of its operator with the same content.
    pub fn unregistered(&self, cdr: &Cdr) -> Option<usize>
        ensures { result ≡ position (λ tariff. not (list_any (registers cdr.now.operator tariff) self.now)) cdr.now.tariffs }
    {
        cdr.tariffs
            .as_slice()
            .iter()
            .position(|tariff| !self.is_registered(&cdr.operator, tariff))
    }
}
