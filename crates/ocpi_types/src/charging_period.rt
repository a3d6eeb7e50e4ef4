ghost use Rattle.std.specs.Prelude.{◌≡◌};
ghost use Rattle.std.specs.List.{list_all};
ghost use Rattle.ocpi_types.specs.Dimension.{is_in_range};

use super::dimension::Dimension;
use super::dimensions::{Dimensions, read_dimensions};
use super::optional_id::OptionalId;
use jiff::Timestamp;
use ocpi_json::Node;
use ocpi_json::fields::{self, FieldFault};
use ocpi_json::name::Name;
use ocpi_json::objects::FromNodeIn;
use std::alloc::Global;

/// What a session counted from a moment on (OCPI 2.2.1, ChargingPeriod object).
#[derive(Drop)]
pub struct ChargingPeriod {
    pub start_date_time: Timestamp,
    pub dimensions: Dimensions,
    pub tariff_id: OptionalId,
}

fn are_in_range(dimensions: &[Dimension]) -> bool
    ensures { result ≡ list_all is_in_range dimensions.now }
{
    dimensions.iter().all(|dimension| dimension.is_in_range())
}

impl ChargingPeriod {
    ghost use Rattle.std.specs.Prelude.{◌≡◌};
    ghost use Rattle.ocpi_types.specs.ChargingPeriod.{has_volumes_in_range};

    /// No volume of energy or time is below 0.
    pub fn has_volumes_in_range(&self) -> bool
        ensures { result ≡ has_volumes_in_range self.now }
    {
        are_in_range(self.dimensions.as_slice())
    }
}

impl FromNodeIn for ChargingPeriod {
    ghost use Rattle.ocpi_types.specs.ChargingPeriod.{period_at};

    ghost at = { period_at };

    #[tactic(auto, unfolding(crate::specs::ChargingPeriod::period_at))]
    fn from_node_in(alloc: Global, node: &Node) -> Result<ChargingPeriod, FieldFault> {
        let start_date_time = fields::instant(node, Name::StartDateTime)?;
        let items = fields::list(node, Name::Dimensions, 1, 100)?;
        let dimensions = read_dimensions(alloc, items)?;
        let tariff_id = OptionalId::new(alloc, fields::ci_text_or_none(node, Name::TariffId)?)?;
        Ok(ChargingPeriod {
            start_date_time,
            dimensions,
            tariff_id,
        })
    }
}
