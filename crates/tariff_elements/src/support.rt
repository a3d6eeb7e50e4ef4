//! The restrictions that are not supported.

ghost use Rattle.std.specs.Prelude.{◌≡◌};
ghost use Rattle.tariff_elements.specs.Support.{bound_of, electric_bound, unsupported};

use ocpi_json::name::Name;
use ocpi_types::{ElectricBounds, Element, Tariff};

fn electric_bound(given: ElectricBounds) -> Option<Name>
    ensures { result ≡ electric_bound given }
{
    if given.min_current {
        Some(Name::MinCurrent)
    } else if given.max_current {
        Some(Name::MaxCurrent)
    } else if given.min_power {
        Some(Name::MinPower)
    } else if given.max_power {
        Some(Name::MaxPower)
    } else {
        None
    }
}

fn bound_of(element: &Element) -> Option<Name>
    ensures { result ≡ bound_of element.now }
{
    match &element.restrictions {
        Some(restrictions) => electric_bound(restrictions.electric),
        None => None,
    }
}

/// Returns the index of the first element that has a bound on current or power, and the name of the first that it has. What such a
/// bound decides is not in the data of a session.
pub fn unsupported(tariff: &Tariff) -> Option<(usize, Name)>
    ensures { result ≡ unsupported tariff.now }
{
    let elements = tariff.elements.as_slice();
    let mut index = 0;
    for element in elements {
        if let Some(bound) = bound_of(element) {
            return Some((index, bound));
        }
        index += 1;
    }
    None
}
