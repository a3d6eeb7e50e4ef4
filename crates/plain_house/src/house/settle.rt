//! Settling what a provider owes of a period.

ghost use Rattle.std.specs.Prelude.{◌≡◌, pos};
ghost use Rattle.cdr_checks.specs.declared.request.Command.TheVariants.{Settle};
ghost use Rattle.plain_house.specs.Entries.{account_entries};
ghost use Rattle.plain_house.specs.House.{Does};
ghost use Rattle.plain_house.specs.LegalLists.{KeepsLimits};
ghost use Rattle.plain_house.specs.Settlements.{settled_debt};

use super::full::full_for_provider;
use super::replies::{add, refused};
use crate::answer::{Answer, Refused, Replied};
use crate::debts::{is_settled, settled_debt};
use crate::event::Event;
use crate::periods::period_of;
use cdr_checks::Settlement;
use exact_money::Amount;
use ocpi_types::{Config, Refusal};

// What the settlement pays, in ten-thousandths.
#[tactic(auto, using(crate::proofs::SettlementLemmas::settled_limit))]
fn paid(config: &Config, events: &[Event], settlement: &Settlement) -> Amount
    requires { KeepsLimits config.now (account_entries events.now) }
    ensures { result ≡ pos (settled_debt settlement.now (account_entries events.now)) }
{
    let _limit = config
        .limit(&settlement.provider, &settlement.currency)
        .get();
    Amount::from_ten_thousandths(settled_debt(events, settlement) as i64)
}

pub fn settle(
    config: &Config,
    events: &mut Vec<Event>,
    settlement: Settlement,
) -> Result<Replied, Refused>
    requires { KeepsLimits config.now (account_entries events.old.items) }
    ensures { Does config.now events.old.items (Settle settlement) result events.new.items }
{
    let at = events.len();
    if period_of(events.as_slice()) <= settlement.period {
        return Err(refused(at, Refusal::PeriodOpen));
    }
    if is_settled(events.as_slice(), &settlement) {
        return Err(refused(at, Refusal::AlreadySettled));
    }
    if let Some(what) = full_for_provider(config, events.as_slice(), &settlement.provider) {
        return Err(refused(at, Refusal::Full { what }));
    }
    let amount = paid(config, events.as_slice(), &settlement);
    add(
        events,
        Event::Settled(settlement),
        Answer::Settled { amount },
    )
}
