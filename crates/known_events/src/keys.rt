//! By what events are found.

ghost use Rattle.std.specs.Prelude.{◌≡◌};
ghost use Rattle.known_events.specs.Inner.Keys.{credited_by, credited_key, end_key, hold_key, own_key, used_by};

use jiff::Timestamp;
use ocpi_json::ci_text::CiText;
use ocpi_types::{Cdr, Currency, Party};
use plain_house::Event;

/// What an event adds.
#[derive(Clone, Copy, PartialEq, Eq, Hash)]
pub enum OwnKey {
    /// A version of a tariff.
    Version {
        operator: Party,
        id: CiText<36>,
        last_updated: Timestamp,
    },
    /// A token, of any type.
    Token {
        provider: Party,
        uid: CiText<36>,
    },
    /// A hold, with any operator.
    Hold {
        provider: Party,
        reference: CiText<36>,
    },
    /// A CDR or Credit CDR.
    Cdr {
        operator: Party,
        id: CiText<39>,
    },
    /// A settlement.
    Settlement {
        provider: Party,
        currency: Currency,
        period: u64,
    },
}

/// The CDR that a CDR or Credit CDR credits.
#[derive(Clone, Copy, PartialEq, Eq, Hash)]
pub struct CreditedKey {
    pub operator: Party,
    pub id: CiText<39>,
}

/// The hold that an event ends.
#[derive(Clone, Copy, PartialEq, Eq, Hash)]
pub enum EndKey {
    /// By its release.
    Release {
        operator: Party,
        provider: Party,
        reference: CiText<36>,
    },
    /// By a CDR that uses it up.
    Use {
        operator: Party,
        provider: Party,
        currency: Currency,
        reference: CiText<36>,
    },
}

/// Returns the key of what an event adds. A release and a close add nothing.
pub fn own_key(event: &Event) -> Option<OwnKey>
    ensures { result ≡ own_key event.now }
{
    match event {
        Event::Tariff(tariff) => Some(OwnKey::Version {
            operator: tariff.operator,
            id: tariff.id,
            last_updated: tariff.last_updated,
        }),
        Event::Token(token) => Some(OwnKey::Token {
            provider: token.provider,
            uid: token.uid,
        }),
        Event::Authorised(hold) => Some(OwnKey::Hold {
            provider: hold.provider,
            reference: hold.reference,
        }),
        Event::Released(_) => None,
        Event::Cdr { cdr, .. } => Some(OwnKey::Cdr {
            operator: cdr.operator,
            id: cdr.id,
        }),
        Event::Credit { cdr, .. } => Some(OwnKey::Cdr {
            operator: cdr.operator,
            id: cdr.id,
        }),
        Event::Settled(settlement) => Some(OwnKey::Settlement {
            provider: settlement.provider,
            currency: settlement.currency,
            period: settlement.period,
        }),
        Event::Closed { .. } => None,
    }
}

fn credited_by(cdr: &Cdr) -> Option<CreditedKey>
    ensures { result ≡ credited_by cdr.now }
{
    Some(CreditedKey {
        operator: cdr.operator,
        id: cdr.credit?,
    })
}

/// Returns the key of the CDR that a CDR or Credit CDR credits, if it names one.
pub fn credited_key(event: &Event) -> Option<CreditedKey>
    ensures { result ≡ credited_key event.now }
{
    match event {
        Event::Cdr { cdr, .. } => credited_by(cdr),
        Event::Credit { cdr, .. } => credited_by(cdr),
        _ => None,
    }
}

fn used_by(cdr: &Cdr) -> Option<EndKey>
    ensures { result ≡ used_by cdr.now }
{
    Some(EndKey::Use {
        operator: cdr.operator,
        provider: cdr.cdr_token.provider,
        currency: cdr.currency,
        reference: cdr.authorization_reference?,
    })
}

/// Returns the key of the hold that an event ends, if it names one. A Credit CDR ends none.
pub fn end_key(event: &Event) -> Option<EndKey>
    ensures { result ≡ end_key event.now }
{
    match event {
        Event::Released(release) => Some(EndKey::Release {
            operator: release.operator,
            provider: release.provider,
            reference: release.reference,
        }),
        Event::Cdr { cdr, .. } => used_by(cdr),
        _ => None,
    }
}

/// Returns the key under which the hold is given.
pub fn hold_key(key: &EndKey) -> OwnKey
    ensures { result ≡ hold_key key.now }
{
    match key {
        EndKey::Release {
            provider,
            reference,
            ..
        } => OwnKey::Hold {
            provider: *provider,
            reference: *reference,
        },
        EndKey::Use {
            provider,
            reference,
            ..
        } => OwnKey::Hold {
            provider: *provider,
            reference: *reference,
        },
    }
}
