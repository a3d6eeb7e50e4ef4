//! Where a member of a request is.

ghost use Rattle.std.specs.Prelude.{◌≡◌};
ghost use Rattle.cdr_checks.specs.Place.{at, declared_cost, in_item, inside, restriction_of_cdr, restriction_of_tariff, volume_at};

use ocpi_json::name::Name;
use ocpi_json::{Around, Step};

/// A member of a request, or an item of the list that a member is, and the objects around it.
#[derive(Clone, Copy)]
pub struct Place {
    pub around: Around,
    pub member: Step,
}

impl Place {
    /// A member of the line.
    pub fn at(member: Name) -> Place
        ensures { result ≡ at member }
    {
        Place {
            around: Around::Nothing,
            member: Step::Member(member),
        }
    }

    /// A member of an object of the line.
    pub fn inside(object: Name, member: Name) -> Place
        ensures { result ≡ inside object member }
    {
        Place {
            around: Around::One(Step::Member(object)),
            member: Step::Member(member),
        }
    }

    /// A member of an item, by its index, of a list of the CDR.
    pub fn in_item(list: Name, index: usize, member: Name) -> Place
        ensures { result ≡ in_item list index member }
    {
        Place {
            around: Around::Two(Step::Member(Name::Cdr), Step::item(list, index)),
            member: Step::Member(member),
        }
    }

    /// The volume of a dimension of a charging period, by both indexes.
    pub fn volume_at(period: usize, dimension: usize) -> Place
        ensures { result ≡ volume_at period dimension }
    {
        let period = Step::item(Name::ChargingPeriods, period);
        let dimension = Step::item(Name::Dimensions, dimension);
        Place {
            around: Around::Three(Step::Member(Name::Cdr), period, dimension),
            member: Step::Member(Name::Volume),
        }
    }

    /// A restriction of an element, by its index, of the tariff that is put.
    pub fn restriction_of_tariff(element: usize, restriction: Name) -> Place
        ensures { result ≡ restriction_of_tariff element restriction }
    {
        let element = Step::item(Name::Elements, element);
        Place {
            around: Around::Three(
                Step::Member(Name::Tariff),
                element,
                Step::Member(Name::Restrictions),
            ),
            member: Step::Member(restriction),
        }
    }

    /// A restriction of an element of a tariff of the CDR, by both indexes.
    pub fn restriction_of_cdr(tariff: usize, element: usize, restriction: Name) -> Place
        ensures { result ≡ restriction_of_cdr tariff element restriction }
    {
        let tariff = Step::item(Name::Tariffs, tariff);
        let element = Step::item(Name::Elements, element);
        Place {
            around: Around::Four(
                Step::Member(Name::Cdr),
                tariff,
                element,
                Step::Member(Name::Restrictions),
            ),
            member: Step::Member(restriction),
        }
    }

    /// The cost that a CDR declares.
    pub fn declared_cost() -> Place
        ensures { result ≡ declared_cost }
    {
        Place {
            around: Around::Two(Step::Member(Name::Cdr), Step::Member(Name::TotalCost)),
            member: Step::Member(Name::ExclVat),
        }
    }
}
