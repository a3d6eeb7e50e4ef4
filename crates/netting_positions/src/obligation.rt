use exact_money::Amount;
use ocpi_types::{Currency, Party};

/// What a provider owes an operator in a currency, in ten-thousandths of its unit. Below 0 it is taken back.
#[derive(Clone, Copy)]
pub struct Obligation {
    pub operator: Party,
    pub provider: Party,
    pub currency: Currency,
    pub amount: Amount,
}

impl Obligation {
    ghost use Rattle.std.specs.Prelude.{◌≡◌};
    ghost use Rattle.netting_positions.specs.Netting.{is_payable, is_receivable};
    ghost use Rattle.netting_positions.specs.Inner.Rows.{counted};

    /// What of it the party is to receive in the currency, in ten-thousandths.
    pub(crate) fn received_by(&self, party: &Party, currency: &Currency) -> i64
        ensures { result ≡ counted (is_receivable party.now currency.now) self.now }
    {
        if self.currency.is(currency) && self.operator.is(party) {
            self.amount.ten_thousandths()
        } else {
            0
        }
    }

    /// What of it the party is to pay in the currency, in ten-thousandths.
    pub(crate) fn paid_by(&self, party: &Party, currency: &Currency) -> i64
        ensures { result ≡ counted (is_payable party.now currency.now) self.now }
    {
        if self.currency.is(currency) && self.provider.is(party) {
            self.amount.ten_thousandths()
        } else {
            0
        }
    }
}
