use super::{Config, Operator, Platform, Provider};
use crate::copying::{TryCopy, copied};
use crate::different::copied_distinct;
use std::alloc::{AllocError, Global};

impl TryCopy for Operator {
    fn copy(&self, _alloc: Global) -> Result<Operator, AllocError> {
        let zone = self.zone.clone()?;
        Ok(Operator {
            party: self.party,
            zone,
        })
    }
}

impl TryCopy for Provider {
    fn copy(&self, alloc: Global) -> Result<Provider, AllocError> {
        let limits = copied(alloc, &self.limits)?;
        Ok(Provider {
            party: self.party,
            limits,
        })
    }
}

impl TryCopy for Platform {
    fn copy(&self, alloc: Global) -> Result<Platform, AllocError> {
        let parties = copied(alloc, &self.parties)?;
        Ok(Platform {
            name: self.name,
            parties,
            hub: self.hub,
        })
    }
}

impl TryCopy for Config {
    fn copy(&self, alloc: Global) -> Result<Config, AllocError> {
        let currencies = copied_distinct(alloc, &self.currencies)?;
        let operators = self.operators.copy(alloc)?;
        let providers = self.providers.copy(alloc)?;
        let platforms = self.platforms.copy(alloc)?;
        let pair_limits = copied_distinct(alloc, &self.pair_limits)?;
        Ok(Config {
            tolerance: self.tolerance,
            currencies,
            operators,
            providers,
            platforms,
            limits: self.limits,
            pair_limits,
            credit_window: self.credit_window,
        })
    }
}
