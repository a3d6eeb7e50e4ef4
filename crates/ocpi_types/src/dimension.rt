ghost use Rattle.std.specs.Prelude.{◌≡◌};
ghost use Rattle.ocpi_json.specs.Faults.{Finds};
ghost use Rattle.ocpi_types.specs.Dimension.{dimension_kind_at};

use super::kept_kind::KeptKind;
use exact_money::Millionths;
use ocpi_json::Node;
use ocpi_json::fields::{self, FieldFault};
use ocpi_json::name::Name;
use ocpi_json::objects::FromNodeIn;
use std::alloc::Global;
use std::marker::Model;

/// A text that names a kind, compared byte by byte.
#[derive(Drop)]
pub struct KindText<'a> {
    text: &'a str,
}

impl<'a> Model for KindText<'a> {
    ghost use Rattle.std.specs.Prelude.{ℕ, List};

    ghost Value = { List ℕ };

    ghost view = { λ t. t.text.now };
}

impl<'a> KindText<'a> {
    pub(crate) fn new(text: &'a str) -> KindText<'a>
        ensures { result ≡ text.now }
    {
        KindText { text }
    }

    pub fn as_str(&self) -> &str
        ensures { result.now ≡ self.now }
    {
        self.text
    }
}

/// What a volume counts (OCPI 2.2.1, CdrDimensionType enum). Every text that is none of the four is kept.
#[derive(Drop)]
pub enum DimensionKind<'a> {
    Energy,
    ParkingTime,
    ReservationTime,
    Time,
    Other(KindText<'a>),
}

/// A volume of a charging period (OCPI 2.2.1, CdrDimension object). Its `type` is the field `kind`.
#[derive(Drop)]
pub struct Dimension {
    pub kind: KeptKind,
    /// In millionths of a kWh, of an hour, or of the unit of another kind.
    pub volume: Millionths,
}

impl Dimension {
    ghost use Rattle.std.specs.Prelude.{◌≡◌};
    ghost use Rattle.ocpi_types.specs.Dimension.{is_in_range};

    /// A volume of energy or time is at least 0.
    pub fn is_in_range(&self) -> bool
        ensures { result ≡ is_in_range self.now }
    {
        match self.kind.get() {
            DimensionKind::Energy
            | DimensionKind::ParkingTime
            | DimensionKind::ReservationTime
            | DimensionKind::Time => self.volume.get() >= 0,
            DimensionKind::Other(_) => true,
        }
    }
}

#[tactic(auto, unfolding(crate::specs::Dimension::dimension_kind_at))]
fn read_kind(alloc: Global, node: &Node) -> Result<KeptKind, FieldFault>
    ensures { Finds result (dimension_kind_at node.now) }
{
    Ok(KeptKind::new(alloc, fields::word(node, Name::Type)?)?)
}

impl FromNodeIn for Dimension {
    ghost use Rattle.ocpi_types.specs.Dimension.{dimension_at};

    ghost at = { dimension_at };

    #[tactic(auto, unfolding(crate::specs::Dimension::dimension_at))]
    fn from_node_in(alloc: Global, node: &Node) -> Result<Dimension, FieldFault> {
        let kind = read_kind(alloc, node)?;
        let volume = fields::number(node, Name::Volume)?;
        Ok(Dimension { kind, volume })
    }
}
