use super::bounded::AtMost;
use super::members::{self, Quantity};
use ocpi_json::name::Name;
use ocpi_json::objects::{FromNode, FromText};
use ocpi_json::{Expected, MemberFault, Node, fields};

/// What a price component charges for (OCPI 2.2.1, TariffDimensionType enum).
#[derive(Clone, Copy, PartialEq, Eq)]
pub enum ComponentKind {
    Energy,
    Flat,
    ParkingTime,
    Time,
}

/// In Wh for energy and in seconds for time; 0 rounds nothing.
pub type StepSize = AtMost<1_000_000_000>;

/// A price per kWh, per hour or once (OCPI 2.2.1, PriceComponent object). Its `type` is the field `kind`.
#[derive(Clone, Copy, PartialEq, Eq)]
pub struct PriceComponent {
    pub kind: ComponentKind,
    /// In millionths of the currency unit.
    pub price: Quantity,
    pub step_size: StepSize,
}

impl ComponentKind {
    ghost use Rattle.std.specs.Prelude.{◌≡◌};
    ghost use Rattle.ocpi_types.specs.Component.{same_component_kind};

    /// The same kind.
    pub fn is(self, other: ComponentKind) -> bool
        ensures { result ≡ same_component_kind self other }
    {
        self == other
    }
}

impl FromText for ComponentKind {
    ghost use Rattle.ocpi_types.specs.Component.{component_kind_of};
    ghost use Rattle.ocpi_json.specs.declared.expected.Expected.TheVariants as expected;

    ghost of_text = { component_kind_of };

    ghost expects = { expected.ComponentKind };

    fn from_text(text: &str) -> Option<ComponentKind> {
        match text {
            "ENERGY" => Some(ComponentKind::Energy),
            "FLAT" => Some(ComponentKind::Flat),
            "PARKING_TIME" => Some(ComponentKind::ParkingTime),
            "TIME" => Some(ComponentKind::Time),
            _ => None,
        }
    }

    fn expected() -> Expected {
        Expected::ComponentKind
    }
}

impl FromNode for PriceComponent {
    ghost use Rattle.ocpi_types.specs.Component.{component_at};

    ghost at = { component_at };

    #[tactic(auto, unfolding(crate::specs::Component::component_at))]
    fn from_node(node: &Node) -> Result<PriceComponent, MemberFault> {
        let kind = fields::parsed(node, Name::Type)?;
        let price = members::quantity(node, Name::Price)?;
        let step_size = members::at_most(node, Name::StepSize, 0)?;
        Ok(PriceComponent {
            kind,
            price,
            step_size,
        })
    }
}
