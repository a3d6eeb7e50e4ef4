//! When two CDRs have the same content.

ghost use Rattle.std.specs.Prelude.{◌≡◌};
ghost use Rattle.ocpi_types.specs.SameCdr.{same_cdr};

use super::{Part, are_same, are_same_if_any, same_tariff};
use crate::cdr::Cdr;
use crate::cdr_token::{AuthMethod, CdrToken};
use crate::charging_period::ChargingPeriod;
use crate::dimension::{Dimension, DimensionKind, KindText};
use crate::kept_kind::KeptKind;
use crate::optional_id::OptionalId;
use crate::shared::Shared;
use crate::tariff::Tariff;
use exact_money::Millionths;
use ocpi_json::ci_text::CiText;

impl Part for Millionths {
    ghost use Rattle.std.specs.Ordering.{int_eq};

    ghost same = { int_eq };

    fn is_same(&self, other: &Millionths) -> bool {
        self.get() == other.get()
    }
}

impl<const MOST: usize> Part for CiText<MOST> {
    ghost use Rattle.ocpi_json.specs.Folded.{same_folded};

    ghost same = { same_folded };

    fn is_same(&self, other: &CiText<MOST>) -> bool {
        *self == *other
    }
}

impl Part for OptionalId {
    ghost use Rattle.std.specs.Option.{option_eq};
    ghost use Rattle.ocpi_json.specs.Folded.{same_folded};

    ghost same = { option_eq same_folded };

    fn is_same(&self, other: &OptionalId) -> bool {
        are_same_if_any(&self.get(), &other.get())
    }
}

impl Part for AuthMethod {
    ghost use Rattle.ocpi_types.specs.CdrToken.{same_method};

    ghost same = { same_method };

    fn is_same(&self, other: &AuthMethod) -> bool {
        *self == *other
    }
}

impl Part for CdrToken {
    ghost use Rattle.ocpi_types.specs.Inner.SameCdr.{same_cdr_token};

    ghost same = { same_cdr_token };

    fn is_same(&self, other: &CdrToken) -> bool {
        self.provider.is(&other.provider)
            && self.uid == other.uid
            && self.kind.is(other.kind)
            && self.contract_id == other.contract_id
    }
}

impl Part for KindText<'_> {
    ghost use Rattle.std.specs.Str.{bytes_eq};

    ghost same = { bytes_eq };

    fn is_same(&self, other: &KindText<'_>) -> bool {
        self.as_str() == other.as_str()
    }
}

impl Part for DimensionKind<'_> {
    ghost use Rattle.ocpi_types.specs.Dimension.{same_dimension_kind};

    ghost same = { same_dimension_kind };

    fn is_same(&self, other: &DimensionKind<'_>) -> bool {
        match (self, other) {
            (DimensionKind::Energy, DimensionKind::Energy) => true,
            (DimensionKind::ParkingTime, DimensionKind::ParkingTime) => true,
            (DimensionKind::ReservationTime, DimensionKind::ReservationTime) => true,
            (DimensionKind::Time, DimensionKind::Time) => true,
            (DimensionKind::Other(ours), DimensionKind::Other(theirs)) => ours.is_same(theirs),
            _ => false,
        }
    }
}

impl Part for KeptKind {
    ghost use Rattle.ocpi_types.specs.Dimension.{same_dimension_kind};

    ghost same = { same_dimension_kind };

    fn is_same(&self, other: &KeptKind) -> bool {
        self.get().is_same(&other.get())
    }
}

impl Part for Dimension {
    ghost use Rattle.ocpi_types.specs.Inner.SameCdr.{same_dimension};

    ghost same = { same_dimension };

    fn is_same(&self, other: &Dimension) -> bool {
        self.kind.is_same(&other.kind) && self.volume.is_same(&other.volume)
    }
}

impl Part for ChargingPeriod {
    ghost use Rattle.ocpi_types.specs.Inner.SameCdr.{same_period};

    ghost same = { same_period };

    #[tactic(auto, unfolding(crate::specs::Inner::SameCdr::same_period))]
    fn is_same(&self, other: &ChargingPeriod) -> bool {
        self.start_date_time.is_same(&other.start_date_time)
            && are_same(self.dimensions.as_slice(), other.dimensions.as_slice())
            && self.tariff_id.is_same(&other.tariff_id)
    }
}

impl Part for Tariff {
    ghost use Rattle.ocpi_types.specs.SameTariff.{same_tariff};

    ghost same = { same_tariff };

    fn is_same(&self, other: &Tariff) -> bool {
        same_tariff(self, other)
    }
}

impl<T: Part + Drop> Part for Shared<T> {
    ghost same = { T.same };

    fn is_same(&self, other: &Shared<T>) -> bool {
        (**self).is_same(&**other)
    }
}

/// Whether two CDRs have the same content: all members agree, parties, ids and references with letters folded.
#[tactic(auto, unfolding(crate::specs::Inner::SameCdr::same_cdr))]
pub fn same_cdr(a: &Cdr, b: &Cdr) -> bool
    ensures { result ≡ same_cdr a.now b.now }
{
    a.operator.is(&b.operator)
        && a.id == b.id
        && a.start_date_time.is_same(&b.start_date_time)
        && a.end_date_time.is_same(&b.end_date_time)
        && a.cdr_token.is_same(&b.cdr_token)
        && a.auth_method.is_same(&b.auth_method)
        && are_same_if_any(&a.authorization_reference, &b.authorization_reference)
        && a.currency.is(&b.currency)
        && are_same(a.tariffs.as_slice(), b.tariffs.as_slice())
        && are_same(a.charging_periods.as_slice(), b.charging_periods.as_slice())
        && a.total_cost.is_same(&b.total_cost)
        && a.total_energy.is_same(&b.total_energy)
        && a.total_time.is_same(&b.total_time)
        && are_same_if_any(&a.credit, &b.credit)
        && a.last_updated.is_same(&b.last_updated)
}
