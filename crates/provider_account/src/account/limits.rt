//! What the limits of a configuration say of an account.

ghost use Rattle.std.specs.Prelude.{◌≡◌, ◌+◌, ◌^◌, ◌≤◌, pos, [], ◌∷◌, ◌++◌};
ghost use Rattle.ocpi_types.specs.Config.{pair_limit_of};
ghost use Rattle.plain_house.specs.Exposure.{exposure_of, of_pair};
ghost use Rattle.plain_house.specs.Full.{is_account_full};
ghost use Rattle.plain_house.specs.House.{exposed, over_credit};
ghost use Rattle.plain_house.specs.OverLimit.{over_if_any};
ghost use Rattle.plain_house.specs.Posting.{above, above_if_any, over_limit};
ghost use Rattle.plain_house.specs.Settlements.{settled_debt};
ghost use Rattle.plain_house.specs.declared.entry.AccountEntry.TheVariants as account;

use super::Account;
use cdr_checks::{Authorize, ExposureOf, Settlement};
use exact_money::Amount;
use ocpi_types::{Config, Party, Refusal};
use plain_house::{Answer, Charge, OverLimit, Scope, above, entries_add_at_most, over};

impl Account {
    /// The provider has as many entries as the configuration allows.
    pub fn is_full(&self, config: &Config, provider: &Party) -> bool
        ensures { result ≡ is_account_full config.now provider.now self.now.entries }
    {
        config.limits.entries.get() <= self.index.counts.entries.get(provider)
    }

    // The open holds and debts within the scope, in ten-thousandths.
    fn exposure_within(&self, scope: &Scope) -> u64
        ensures value { result ≡ exposure_of scope.now self.now.entries }
        ensures bound { result ≤ 10 ^ 15 }
    {
        self.index.exposure(self.entries.as_slice(), scope)
    }

    fn over_pair_credit(&self, config: &Config, ask: &Authorize, hold: u64) -> Option<OverLimit>
        requires { hold ≤ 10 ^ 12 }
        ensures { result ≡ over_if_any (pair_limit_of config.now ask.now.operator ask.now.provider ask.now.currency)
            (exposure_of (of_pair ask.now.operator ask.now.provider ask.now.currency) self.now.entries + hold) }
    {
        match config.pair_limit(&ask.operator, &ask.provider, &ask.currency) {
            Some(limit) => {
                let scope = Scope::of_pair(ask.operator, ask.provider, ask.currency);
                over(limit.get(), self.exposure_within(&scope) + hold, true)
            }
            None => None,
        }
    }

    /// With the hold, the exposure would be above the provider's limit, or its limit with the operator.
    pub fn over_credit(&self, config: &Config, ask: &Authorize) -> Option<OverLimit>
        ensures { result ≡ over_credit config.now ask.now self.now.entries }
    {
        let hold = config.hold(&ask.provider, &ask.currency).get();
        let limit = config.limit(&ask.provider, &ask.currency).get();
        let scope = Scope::of_provider(ask.provider, ask.currency);
        let found = over(limit, self.exposure_within(&scope) + hold, false);
        if found.is_some() {
            return found;
        }
        self.over_pair_credit(config, ask, hold)
    }

    // The refusal where an exposure with the charge added is above its limit. The charge may use up a hold and may have ended, which
    // is looked up only if its cost could be too much.
    fn above_with(&self, limit: u64, scope: &Scope, charge: &Charge, pair: bool) -> Option<Refusal>
        requires { limit ≤ 10 ^ 15 }
        ensures { result ≡ above limit (exposure_of scope.now (self.now.entries ++ account.Charge charge.now ∷ [])) pair }
    {
        entries_add_at_most();
        if self.exposure_within(scope) + charge.cost.get() <= limit {
            return None;
        }
        let exposure = self
            .index
            .exposure_with(self.entries.as_slice(), scope, charge);
        above(limit, exposure, pair)
    }

    fn over_pair_limit(&self, config: &Config, charge: &Charge) -> Option<Refusal>
        ensures { result ≡ above_if_any (pair_limit_of config.now charge.now.operator charge.now.provider charge.now.currency)
            (exposure_of (of_pair charge.now.operator charge.now.provider charge.now.currency) (self.now.entries ++ account.Charge charge.now ∷ [])) }
    {
        match config.pair_limit(&charge.operator, &charge.provider, &charge.currency) {
            Some(limit) => {
                let most = limit.get();
                let scope = Scope::of_pair(charge.operator, charge.provider, charge.currency);
                self.above_with(most, &scope, charge, true)
            }
            None => None,
        }
    }

    /// With the charge added, an exposure would be above its limit.
    pub fn over_limit(&self, config: &Config, charge: &Charge) -> Option<Refusal>
        ensures { result ≡ over_limit config.now charge.now self.now.entries }
    {
        let limit = config.limit(&charge.provider, &charge.currency).get();
        let scope = Scope::of_provider(charge.provider, charge.currency);
        let refusal = self.above_with(limit, &scope, charge, false);
        if refusal.is_some() {
            return refusal;
        }
        self.over_pair_limit(config, charge)
    }

    /// The debt that the settlement ends.
    #[tactic(auto, using(crate::proofs::LimitsLemmas::limited_settlement))]
    pub fn settled_debt(&self, settlement: &Settlement) -> Amount
        ensures { result ≡ pos (settled_debt settlement.now self.now.entries) }
    {
        let debt = self
            .index
            .debts
            .settled_debt(self.entries.as_slice(), settlement);
        Amount::from_ten_thousandths(debt as i64)
    }

    /// What a provider holds and owes, and its limit.
    pub fn exposure(&self, config: &Config, ask: &ExposureOf) -> Answer
        ensures { result ≡ exposed config.now ask.now self.now.entries }
    {
        let scope = Scope::of_provider(ask.provider, ask.currency);
        let limit = config.limit(&ask.provider, &ask.currency).get();
        let holds = self.index.holds.total(&scope);
        let debts = self.index.debts.owed(self.entries.as_slice(), &scope);
        Answer::Exposure {
            holds: Amount::from_ten_thousandths(holds as i64),
            debts: Amount::from_ten_thousandths(debts as i64),
            limit: Amount::from_ten_thousandths(limit as i64),
        }
    }
}
