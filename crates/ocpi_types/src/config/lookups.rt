//! What the configuration says of parties, currencies and platforms.

ghost use Rattle.std.specs.Prelude.{◌≡◌, option_copied};
ghost use Rattle.ocpi_types.specs.Config.{has_currency_among, operator_among, provider_among};

use super::{Config, CreditLimit, HoldAmount, Operator, Platform, Provider, ProviderLimit};
use crate::bounded::AtMost;
use crate::currency::Currency;
use crate::party::Party;
use ocpi_json::ci_text::CiText;
use ocpi_json::same::Same;

impl Provider {
    ghost use Rattle.std.specs.Prelude.{◌≡◌, option_copied};
    ghost use Rattle.ocpi_types.specs.Config.{row_in};

    /// The limits in a currency.
    pub fn row(&self, currency: &Currency) -> Option<&ProviderLimit>
        ensures { option_copied result ≡ row_in currency.now self.now }
    {
        self.limits
            .as_slice()
            .iter()
            .find(|row| row.currency.is(currency))
    }
}

impl Platform {
    ghost use Rattle.std.specs.Prelude.{◌≡◌};
    ghost use Rattle.ocpi_types.specs.Config.{acts_for};

    /// The platform acts for the party.
    pub fn acts_for(&self, party: &Party) -> bool
        ensures { result ≡ acts_for self.now party.now }
    {
        self.parties.as_slice().iter().any(|other| other.is(party))
    }
}

impl Config {
    ghost use Rattle.std.specs.Prelude.{◌≡◌, ◌≤◌, length, true, option_copied, option_map};
    ghost use Rattle.ocpi_types.specs.Currency.{same_currency};
    ghost use Rattle.ocpi_types.specs.Different.{all_different};
    ghost use Rattle.ocpi_types.specs.Config.{alike_operators, alike_providers, as_configured, has_currency, hold_of, is_hub, is_operator, is_party, is_provider, limit_of, may_act_for, operator_of, pair_limit_of, platform_of, provider_of, row_of};

    /// States that no two operators, no two providers and no two currencies are the same.
    pub fn has_distinct_parts(&self)
        ensures operators { all_different alike_operators self.now.operators ≡ true }
        ensures providers { all_different alike_providers self.now.providers ≡ true }
        ensures currencies { all_different same_currency self.now.currencies ≡ true }
    {
        let _operators = self.operators.as_slice();
        let _providers = self.providers.as_slice();
        let _currencies = self.currencies.as_slice();
    }

    /// States how many operators and CDRs there can be.
    pub fn is_bounded(&self)
        ensures operators { length self.now.operators ≤ 64 }
        ensures cdrs { self.now.limits.cdrs ≤ 100_000 }
    {
        let _operators = self.operators.as_slice();
        let _cdrs = self.limits.cdrs.get();
    }

    pub fn operator(&self, party: &Party) -> Option<&Operator>
        ensures { option_copied result ≡ operator_of self.now party.now }
    {
        operator_among(self.operators.as_slice(), party)
    }

    pub fn provider(&self, party: &Party) -> Option<&Provider>
        ensures { option_copied result ≡ provider_of self.now party.now }
    {
        provider_among(self.providers.as_slice(), party)
    }

    pub fn is_operator(&self, party: &Party) -> bool
        ensures { result ≡ is_operator self.now party.now }
    {
        self.operator(party).is_some()
    }

    pub fn is_provider(&self, party: &Party) -> bool
        ensures { result ≡ is_provider self.now party.now }
    {
        self.provider(party).is_some()
    }

    /// The party is configured as an operator, as a provider or as both.
    pub fn is_party(&self, party: &Party) -> bool
        ensures { result ≡ is_party self.now party.now }
    {
        self.is_operator(party) || self.is_provider(party)
    }

    /// The party as it is configured, where it is both as it stands among the operators.
    pub fn as_configured(&self, party: &Party) -> Party
        ensures { result ≡ as_configured self.now party.now }
    {
        if let Some(operator) = self.operator(party) {
            return operator.party;
        }
        match self.provider(party) {
            Some(provider) => provider.party,
            None => *party,
        }
    }

    pub fn has_currency(&self, currency: &Currency) -> bool
        ensures { result ≡ has_currency self.now currency.now }
    {
        has_currency(self.currencies.as_slice(), currency)
    }

    fn row(&self, party: &Party, currency: &Currency) -> Option<&ProviderLimit>
        ensures { option_copied result ≡ row_of self.now party.now currency.now }
    {
        match self.provider(party) {
            Some(provider) => provider.row(currency),
            None => None,
        }
    }

    /// The credit limit of a provider in a currency, 0 where it has no row.
    pub fn limit(&self, party: &Party, currency: &Currency) -> CreditLimit
        ensures { result ≡ limit_of self.now party.now currency.now }
    {
        match self.row(party, currency) {
            Some(row) => row.limit,
            None => AtMost::zero(),
        }
    }

    /// What an authorisation holds of a provider in a currency, 0.0001 where it has no row.
    pub fn hold(&self, party: &Party, currency: &Currency) -> HoldAmount
        ensures { result ≡ hold_of self.now party.now currency.now }
    {
        match self.row(party, currency) {
            Some(row) => row.hold,
            None => least_hold(),
        }
    }

    /// The credit limit of a provider with one operator in a currency, if there is one.
    pub fn pair_limit(
        &self,
        operator: &Party,
        provider: &Party,
        currency: &Currency,
    ) -> Option<CreditLimit>
        ensures { result ≡ pair_limit_of self.now operator.now provider.now currency.now }
    {
        let row = self.pair_limits.as_slice().iter().find(|row| {
            row.operator.is(operator) && row.provider.is(provider) && row.currency.is(currency)
        })?;
        Some(row.limit)
    }

    pub fn platform(&self, name: &CiText<36>) -> Option<&Platform>
        ensures { option_copied result ≡ platform_of self.now name.now }
    {
        let platforms = self.platforms.as_slice();
        // Most names come as they are configured. No other platform is then of that name.
        for platform in platforms {
            if platform.name.is_same(name) {
                return Some(platform);
            }
        }
        platforms.iter().find(|platform| platform.name == *name)
    }

    /// The platform of that name is a hub; an unknown platform is none.
    pub fn is_hub(&self, name: &CiText<36>) -> bool
        ensures { result ≡ is_hub self.now name.now }
    {
        let Some(platform) = self.platform(name) else {
            return false;
        };
        platform.hub
    }

    /// The platform of that name acts for the party; an unknown platform acts for none.
    pub fn may_act_for(&self, name: &CiText<36>, party: &Party) -> bool
        ensures { result ≡ may_act_for self.now name.now party.now }
    {
        match self.platform(name) {
            Some(platform) => platform.acts_for(party),
            None => false,
        }
    }
}

pub fn operator_among<'a>(operators: &'a [Operator], party: &Party) -> Option<&'a Operator>
    ensures { option_copied result ≡ operator_among operators.now party.now }
{
    operators.iter().find(|operator| operator.party.is(party))
}

pub fn provider_among<'a>(providers: &'a [Provider], party: &Party) -> Option<&'a Provider>
    ensures { option_copied result ≡ provider_among providers.now party.now }
{
    providers.iter().find(|provider| provider.party.is(party))
}

pub fn has_currency(currencies: &[Currency], currency: &Currency) -> bool
    ensures { result ≡ has_currency_among currencies.now currency.now }
{
    currencies.iter().any(|other| other.is(currency))
}

fn least_hold() -> HoldAmount
    ensures { result ≡ 1 }
{
    AtMost::new(1).unwrap()
}
