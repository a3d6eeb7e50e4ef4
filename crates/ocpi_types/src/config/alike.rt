//! Of which a list of the configuration has no two.

use super::{Operator, PairLimit, Platform, Provider, ProviderLimit};
use crate::different::Alike;

impl Alike for Operator {
    ghost use Rattle.ocpi_types.specs.Config.{alike_operators};

    ghost alike = { alike_operators };

    fn is_like(&self, other: &Operator) -> bool {
        self.party.is(&other.party)
    }
}

impl Alike for Provider {
    ghost use Rattle.ocpi_types.specs.Config.{alike_providers};

    ghost alike = { alike_providers };

    fn is_like(&self, other: &Provider) -> bool {
        self.party.is(&other.party)
    }
}

impl Alike for ProviderLimit {
    ghost use Rattle.ocpi_types.specs.Config.{alike_rows};

    ghost alike = { alike_rows };

    fn is_like(&self, other: &ProviderLimit) -> bool {
        self.currency.is(&other.currency)
    }
}

impl Alike for Platform {
    ghost use Rattle.ocpi_types.specs.Config.{alike_platforms};

    ghost alike = { alike_platforms };

    fn is_like(&self, other: &Platform) -> bool {
        self.name == other.name
    }
}

impl Alike for PairLimit {
    ghost use Rattle.ocpi_types.specs.Config.{alike_pairs};

    ghost alike = { alike_pairs };

    fn is_like(&self, other: &PairLimit) -> bool {
        self.operator.is(&other.operator)
            && self.provider.is(&other.provider)
            && self.currency.is(&other.currency)
    }
}
