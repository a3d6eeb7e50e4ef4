//! What a provider holds and owes.

ghost use Rattle.std.specs.Prelude.{◌≡◌, length};
ghost use Rattle.plain_house.specs.Entries.{account_entries};
ghost use Rattle.plain_house.specs.House.{exposed};
ghost use Rattle.plain_house.specs.LegalLists.{KeepsLimits};

use super::replies::replied;
use crate::answer::{Answer, Replied};
use crate::debts::debts_of;
use crate::event::Event;
use crate::holds::holds_of;
use crate::scope::Scope;
use cdr_checks::ExposureOf;
use exact_money::Amount;
use ocpi_types::Config;

pub fn exposure(config: &Config, events: &[Event], ask: ExposureOf) -> Replied
    requires { KeepsLimits config.now (account_entries events.now) }
    ensures { result ≡ record { at = length events.now; answer = exposed config.now ask (account_entries events.now) } }
{
    let scope = Scope::of_provider(ask.provider, ask.currency);
    let limit = config.limit(&ask.provider, &ask.currency).get();
    let holds = holds_of(events, &scope, None);
    let debts = debts_of(events, &scope, None);
    let answer = Answer::Exposure {
        holds: Amount::from_ten_thousandths(holds as i64),
        debts: Amount::from_ten_thousandths(debts as i64),
        limit: Amount::from_ten_thousandths(limit as i64),
    };
    replied(events.len(), answer)
}
