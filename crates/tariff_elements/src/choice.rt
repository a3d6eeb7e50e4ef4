ghost use Rattle.std.specs.Prelude.{◌≡◌, ◌&&◌, false, is_some};
ghost use Rattle.std.specs.List.{list_any};
ghost use Rattle.std.specs.Option.{option_copied, option_map_or};
ghost use Rattle.tariff_elements.specs.Active.{active, applies, chosen, component_of};
ghost use Rattle.tariff_elements.specs.Clock.{asks_clock, has_clock_bound, is_by_clock, IsActiveAnyTime};

use super::matching::{has_clock_bound, matches};
use super::moments::Moment;
use ocpi_types::{ComponentKind, Element, PriceComponent, Tariff};

fn component_of(element: &Element, kind: ComponentKind) -> Option<&PriceComponent>
    ensures { option_copied result ≡ component_of kind element.now }
{
    element
        .price_components
        .as_slice()
        .iter()
        .find(|component| component.kind.is(kind))
}

fn applies(element: &Element, moment: &Moment) -> bool
    ensures { result ≡ applies moment.now element.now }
{
    match &element.restrictions {
        Some(restrictions) => matches(restrictions, moment),
        None => true,
    }
}

fn is_chosen(element: &Element, kind: ComponentKind, moment: &Moment) -> bool
    ensures { result ≡ (is_some (component_of kind element.now) && applies moment.now element.now) }
{
    component_of(element, kind).is_some() && applies(element, moment)
}

fn chosen<'a>(elements: &'a [Element], kind: ComponentKind, moment: &Moment) -> Option<&'a Element>
    ensures { option_copied result ≡ chosen elements.now kind moment.now }
{
    elements
        .iter()
        .find(|element| is_chosen(element, kind, moment))
}

/// The component of the kind that is active at the moment (OCPI 2.2.1, TariffElement object): that
/// of the first element that has one and whose restrictions hold.
pub fn active<'a>(
    tariff: &'a Tariff,
    kind: ComponentKind,
    moment: &Moment,
) -> Option<&'a PriceComponent>
    ensures { option_copied result ≡ active tariff.now kind moment.now }
{
    match chosen(tariff.elements.as_slice(), kind, moment) {
        Some(element) => component_of(element, kind),
        None => None,
    }
}

fn has_clock_bounds(element: &Element) -> bool
    ensures { result ≡ option_map_or has_clock_bound element.now.restrictions false }
{
    match &element.restrictions {
        Some(restrictions) => has_clock_bound(restrictions),
        None => false,
    }
}

fn is_by_clock(element: &Element, kind: ComponentKind) -> bool
    ensures { result ≡ is_by_clock kind element.now }
{
    component_of(element, kind).is_some() && has_clock_bounds(element)
}

fn any_is_by_clock(elements: &[Element], kind: ComponentKind) -> bool
    ensures { result ≡ list_any (is_by_clock kind) elements.now }
{
    elements.iter().any(|element| is_by_clock(element, kind))
}

/// Whether an element that has a component of the kind is restricted by the date, the day of the week or the time of
/// day. If none is, the same component is active whatever the clock shows.
pub fn asks_clock(tariff: &Tariff, kind: ComponentKind) -> bool
    ensures value { result ≡ asks_clock tariff.now kind }
    ensures any_time { result ≡ false → IsActiveAnyTime tariff.now kind }
{
    any_is_by_clock(tariff.elements.as_slice(), kind)
}
