use super::component::PriceComponent;
use super::restrictions::Restrictions;
use ocpi_json::Node;
use ocpi_json::fields::{self, FieldFault};
use ocpi_json::name::Name;
use ocpi_json::objects::{FromNodeIn, read_each, read_if_any_in};
use ocpi_json::sequence::Sequence;
use std::alloc::Global;

/// Price components under one set of restrictions (OCPI 2.2.1, TariffElement object).
#[derive(Drop)]
pub struct Element {
    pub price_components: Sequence<PriceComponent>,
    pub restrictions: Option<Restrictions>,
}

impl FromNodeIn for Element {
    ghost use Rattle.ocpi_types.specs.Element.{element_at};

    ghost at = { element_at };

    #[tactic(auto, unfolding(crate::specs::Element::element_at))]
    fn from_node_in(alloc: Global, node: &Node) -> Result<Element, FieldFault> {
        let items = fields::list(node, Name::PriceComponents, 1, 16)?;
        let price_components = read_each(alloc, Name::PriceComponents, items)?;
        let found = fields::object_or_none(node, Name::Restrictions)?;
        let restrictions = read_if_any_in(alloc, Name::Restrictions, found)?;
        Ok(Element {
            price_components,
            restrictions,
        })
    }
}
