//! Events, entries and replies compared exactly: parties, ids and references as they are written.

use super::answer::{Answer, Refused, Replied};
use super::booked_amount::BookedAmount;
use super::entry::{AccountEntry, Charge, Credit};
use super::event::{Event, Hold};
use ocpi_json::same::Same;

impl Same for BookedAmount {
    fn is_same(&self, other: &BookedAmount) -> bool {
        self.amount().is_same(&other.amount())
    }
}

impl Same for Hold {
    fn is_same(&self, other: &Hold) -> bool {
        self.operator.is_same(&other.operator)
            && self.provider.is_same(&other.provider)
            && self.currency.is_same(&other.currency)
            && self.amount.is_same(&other.amount)
            && self.reference.is_same(&other.reference)
    }
}

impl Same for Charge {
    fn is_same(&self, other: &Charge) -> bool {
        self.operator.is_same(&other.operator)
            && self.provider.is_same(&other.provider)
            && self.currency.is_same(&other.currency)
            && self.cdr.is_same(&other.cdr)
            && self.cost.is_same(&other.cost)
            && self.period.is_same(&other.period)
            && self.hold.is_same(&other.hold)
    }
}

impl Same for Credit {
    fn is_same(&self, other: &Credit) -> bool {
        self.operator.is_same(&other.operator)
            && self.provider.is_same(&other.provider)
            && self.currency.is_same(&other.currency)
            && self.original.is_same(&other.original)
            && self.amount.is_same(&other.amount)
            && self.period.is_same(&other.period)
    }
}

impl Same for AccountEntry {
    fn is_same(&self, other: &AccountEntry) -> bool {
        match (self, other) {
            (AccountEntry::Token(ours), AccountEntry::Token(theirs)) => ours.is_same(theirs),
            (AccountEntry::Hold(ours), AccountEntry::Hold(theirs)) => ours.is_same(theirs),
            (AccountEntry::Release(ours), AccountEntry::Release(theirs)) => ours.is_same(theirs),
            (AccountEntry::Charge(ours), AccountEntry::Charge(theirs)) => ours.is_same(theirs),
            (AccountEntry::Credit(ours), AccountEntry::Credit(theirs)) => ours.is_same(theirs),
            (AccountEntry::Settlement(ours), AccountEntry::Settlement(theirs)) => {
                ours.is_same(theirs)
            }
            _ => false,
        }
    }
}

impl Same for Event {
    fn is_same(&self, other: &Event) -> bool {
        match (self, other) {
            (Event::Tariff(ours), Event::Tariff(theirs)) => ours.is_same(theirs),
            (Event::Token(ours), Event::Token(theirs)) => ours.is_same(theirs),
            (Event::Authorised(ours), Event::Authorised(theirs)) => ours.is_same(theirs),
            (Event::Released(ours), Event::Released(theirs)) => ours.is_same(theirs),
            (
                Event::Cdr { cdr, cost },
                Event::Cdr {
                    cdr: their_cdr,
                    cost: their_cost,
                },
            ) => cdr.is_same(their_cdr) && cost.is_same(their_cost),
            (
                Event::Credit { cdr, amount },
                Event::Credit {
                    cdr: their_cdr,
                    amount: their_amount,
                },
            ) => cdr.is_same(their_cdr) && amount.is_same(their_amount),
            (Event::Settled(ours), Event::Settled(theirs)) => ours.is_same(theirs),
            (Event::Closed { period: ours }, Event::Closed { period: theirs }) => {
                ours.is_same(theirs)
            }
            _ => false,
        }
    }
}

impl Same for Answer {
    fn is_same(&self, other: &Answer) -> bool {
        match (self, other) {
            (Answer::Stored, Answer::Stored)
            | (Answer::Unchanged, Answer::Unchanged)
            | (Answer::Blocked, Answer::Blocked) => true,
            (Answer::NoCredit(ours), Answer::NoCredit(theirs)) => ours.is_same(theirs),
            (Answer::Allowed { reference: ours }, Answer::Allowed { reference: theirs }) => {
                ours.is_same(theirs)
            }
            (Answer::Released { amount: ours }, Answer::Released { amount: theirs })
            | (Answer::Settled { amount: ours }, Answer::Settled { amount: theirs }) => {
                ours.is_same(theirs)
            }
            (
                Answer::Accepted { amount, period },
                Answer::Accepted {
                    amount: their_amount,
                    period: their_period,
                },
            )
            | (
                Answer::Repeated { amount, period },
                Answer::Repeated {
                    amount: their_amount,
                    period: their_period,
                },
            ) => amount.is_same(their_amount) && period.is_same(their_period),
            (
                Answer::Closed { period, positions },
                Answer::Closed {
                    period: their_period,
                    positions: their_positions,
                },
            ) => period.is_same(their_period) && positions.is_same(their_positions),
            (
                Answer::Exposure {
                    holds,
                    debts,
                    limit,
                },
                Answer::Exposure {
                    holds: their_holds,
                    debts: their_debts,
                    limit: their_limit,
                },
            ) => {
                holds.is_same(their_holds)
                    && debts.is_same(their_debts)
                    && limit.is_same(their_limit)
            }
            (
                Answer::Found {
                    amount,
                    period,
                    credited,
                },
                Answer::Found {
                    amount: their_amount,
                    period: their_period,
                    credited: their_credited,
                },
            ) => {
                amount.is_same(their_amount)
                    && period.is_same(their_period)
                    && credited.is_same(their_credited)
            }
            (Answer::Statement { rows: ours }, Answer::Statement { rows: theirs }) => {
                ours.is_same(theirs)
            }
            _ => false,
        }
    }
}

impl Same for Replied {
    fn is_same(&self, other: &Replied) -> bool {
        self.at.is_same(&other.at) && self.answer.is_same(&other.answer)
    }
}

impl Same for Refused {
    fn is_same(&self, other: &Refused) -> bool {
        self.at.is_same(&other.at) && self.refusal.is_same(&other.refusal)
    }
}
