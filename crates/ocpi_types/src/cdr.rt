ghost use Rattle.std.specs.Prelude.{◌≡◌, ◌||◌, true, pos, int_le, nat_le, length, is_some};
ghost use Rattle.std.specs.List.{list_all};
ghost use Rattle.ocpi_types.specs.ChargingPeriod.{has_volumes_in_range};

mod reading;

use super::cdr_token::{AuthMethod, CdrToken};
use super::charging_period::ChargingPeriod;
use super::currency::Currency;
use super::party::Party;
use super::tariffs::Tariffs;
use super::up_to::UpTo;
use exact_money::Millionths;
use jiff::Timestamp;
use ocpi_json::ci_text::CiText;

/// A charge detail record of an operator (OCPI 2.2.1, CDR object). One that is no Credit CDR has an id of up to 36 bytes and no
/// volume or total energy below 0.
pub struct Cdr {
    pub operator: Party,
    pub id: CiText<39>,
    pub start_date_time: Timestamp,
    pub end_date_time: Timestamp,
    pub last_updated: Timestamp,
    pub cdr_token: CdrToken,
    pub auth_method: AuthMethod,
    pub authorization_reference: Option<CiText<36>>,
    pub currency: Currency,
    /// The id of the CDR that a Credit CDR credits; none where this is no Credit CDR.
    pub credit: Option<CiText<39>>,
    pub tariffs: Tariffs,
    pub charging_periods: UpTo<ChargingPeriod, 1000>,
    /// Without tax, in millionths of the currency unit.
    pub total_cost: Millionths,
    /// In millionths of a kWh.
    pub total_energy: Millionths,
    /// In millionths of an hour.
    pub total_time: Millionths,
    pub ghost id_in_range: { (is_some credit || nat_le (length id) 36) ≡ true },
    pub ghost volumes_in_range: { (is_some credit || list_all has_volumes_in_range charging_periods) ≡ true },
    pub ghost energy_in_range: { (is_some credit || int_le (pos 0) total_energy) ≡ true },
}

// Not derived: what is derived is proved anew in each crate that drops one.
impl Drop for Cdr {
    fn drop(self) {
        let Cdr {
            operator: _,
            id: _,
            start_date_time: _,
            end_date_time: _,
            cdr_token: _,
            auth_method: _,
            authorization_reference: _,
            currency: _,
            tariffs: _,
            charging_periods: _,
            total_cost: _,
            total_energy: _,
            total_time: _,
            credit: _,
            last_updated: _,
        } = self;
    }
}

impl Cdr {
    ghost use Rattle.std.specs.Prelude.{◌≡◌};
    ghost use Rattle.ocpi_types.specs.Cdr.{is_credit};

    /// It is a Credit CDR.
    pub fn is_credit(&self) -> bool
        ensures { result ≡ is_credit self.now }
    {
        self.credit.is_some()
    }
}
