ghost use Rattle.std.specs.Prelude.{◌≡◌};
ghost use Rattle.plain_house.specs.Exposure.{is_by, is_within, of_pair, of_provider};

use ocpi_types::{Currency, Party};

/// Whose exposure is meant: a provider's in a currency, with the operator where one is given.
#[derive(Clone, Copy)]
pub struct Scope {
    pub operator: Option<Party>,
    pub provider: Party,
    pub currency: Currency,
}

fn is_by(only: &Option<Party>, operator: &Party) -> bool
    ensures { result ≡ is_by only.now operator.now }
{
    match only {
        Some(only) => operator.is(only),
        None => true,
    }
}

impl Scope {
    ghost use Rattle.std.specs.Prelude.{◌≡◌};
    ghost use Rattle.plain_house.specs.Exposure.{is_within, of_pair, of_provider};

    /// A provider's, with all operators.
    pub fn of_provider(provider: Party, currency: Currency) -> Scope
        ensures { result ≡ of_provider provider currency }
    {
        Scope {
            operator: None,
            provider,
            currency,
        }
    }

    /// A provider's with one operator.
    pub fn of_pair(operator: Party, provider: Party, currency: Currency) -> Scope
        ensures { result ≡ of_pair operator provider currency }
    {
        Scope {
            operator: Some(operator),
            provider,
            currency,
        }
    }

    /// What stands between these two in that currency counts.
    pub fn covers(&self, operator: &Party, provider: &Party, currency: &Currency) -> bool
        ensures { result ≡ is_within self.now operator.now provider.now currency.now }
    {
        is_by(&self.operator, operator)
            && provider.is(&self.provider)
            && currency.is(&self.currency)
    }
}
