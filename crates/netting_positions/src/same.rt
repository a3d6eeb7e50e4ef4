//! Rows compared exactly: parties as they are written.

use super::positions::NetPosition;
use super::row::StatementRow;
use ocpi_json::same::Same;

impl Same for NetPosition {
    fn is_same(&self, other: &NetPosition) -> bool {
        self.currency.is_same(&other.currency)
            && self.party.is_same(&other.party)
            && self.net.is_same(&other.net)
    }
}

impl Same for StatementRow {
    fn is_same(&self, other: &StatementRow) -> bool {
        self.currency.is_same(&other.currency)
            && self.counterpart.is_same(&other.counterpart)
            && self.receivable.is_same(&other.receivable)
            && self.payable.is_same(&other.payable)
            && self.net.is_same(&other.net)
    }
}
