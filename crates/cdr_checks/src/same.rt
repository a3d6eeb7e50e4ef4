//! What is asked for compared exactly: parties and references as they are written.

use super::request::{Release, Settlement};
use ocpi_json::same::Same;

impl Same for Release {
    fn is_same(&self, other: &Release) -> bool {
        self.operator.is_same(&other.operator)
            && self.provider.is_same(&other.provider)
            && self.reference.is_same(&other.reference)
    }
}

impl Same for Settlement {
    fn is_same(&self, other: &Settlement) -> bool {
        self.provider.is_same(&other.provider)
            && self.currency.is_same(&other.currency)
            && self.period.is_same(&other.period)
    }
}
