ghost use Rattle.std.specs.Prelude.{◌≡◌};
ghost use Rattle.ocpi_types.specs.Tariff.{price_at};

use super::currency::Currency;
use super::element::Element;
use super::members::{self, Quantity};
use super::party::Party;
use jiff::Timestamp;
use ocpi_json::ci_text::CiText;
use ocpi_json::fields::{self, FieldFault};
use ocpi_json::name::Name;
use ocpi_json::objects::{FromNodeIn, read_each_in, within};
use ocpi_json::sequence::Sequence;
use ocpi_json::{HasMembers, MemberFault, Node, Step};
use std::alloc::Global;

/// A version of a tariff of an operator (OCPI 2.2.1, Tariff object).
pub struct Tariff {
    pub operator: Party,
    pub id: CiText<36>,
    pub currency: Currency,
    /// Without tax, in millionths of the currency unit.
    pub min_price: Option<Quantity>,
    /// Without tax, in millionths of the currency unit.
    pub max_price: Option<Quantity>,
    pub elements: Sequence<Element>,
    pub last_updated: Timestamp,
}

// Not derived: what is derived is proved anew in each crate that drops one.
impl Drop for Tariff {
    fn drop(self) {
        let Tariff {
            operator: _,
            id: _,
            currency: _,
            min_price: _,
            max_price: _,
            elements: _,
            last_updated: _,
        } = self;
    }
}

#[tactic(auto, unfolding(crate::specs::Tariff::price_at))]
fn read_price<'n, M: HasMembers<'n>>(node: &M, name: Name) -> Result<Option<Quantity>, MemberFault>
    ensures { result ≡ price_at name (M.object node.now) }
{
    match fields::object_or_none(node, name)? {
        Some(price) => {
            let read = members::quantity(&price, Name::ExclVat);
            Ok(Some(within(Step::Member(name), read)?))
        }
        None => Ok(None),
    }
}

impl FromNodeIn for Tariff {
    ghost use Rattle.ocpi_types.specs.Tariff.{tariff_at};

    ghost at = { tariff_at };

    #[tactic(auto, unfolding(crate::specs::Tariff::tariff_at))]
    fn from_node_in(alloc: Global, node: &Node) -> Result<Tariff, FieldFault> {
        let node = &node.pick(&[
            Name::CountryCode,
            Name::PartyId,
            Name::Id,
            Name::Currency,
            Name::MinPrice,
            Name::MaxPrice,
            Name::Elements,
            Name::LastUpdated,
        ]);
        let operator = Party::from_members(node)?;
        let id = fields::ci_text(node, Name::Id)?;
        let currency = members::currency(node, Name::Currency)?;
        let min_price = read_price(node, Name::MinPrice)?;
        let max_price = read_price(node, Name::MaxPrice)?;
        let items = fields::list(node, Name::Elements, 1, 100)?;
        let elements = read_each_in(alloc, Name::Elements, items)?;
        let last_updated = fields::instant(node, Name::LastUpdated)?;
        Ok(Tariff {
            operator,
            id,
            currency,
            min_price,
            max_price,
            elements,
            last_updated,
        })
    }
}
