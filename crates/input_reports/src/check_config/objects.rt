//! The objects of a configuration: where they stand, and which members they have.

ghost use Rattle.std.specs.Prelude.{◌≡◌, ◌↔◌, IsTrue, Ok};
ghost use Rattle.ocpi_json.specs.Fields.{required, whole as whole_number};
ghost use Rattle.ocpi_json.specs.declared.name.Name.TheVariants.{Version};
ghost use Rattle.input_reports.specs.check_config.Known.{items_at};

use ocpi_json::name::Name;
use ocpi_json::{Node, Nodes, fields};
use std::alloc::{AllocError, Global};
use std::fmt;

/// A list of objects in a configuration.
#[derive(Clone, Copy)]
pub enum Listing {
    Operators,
    Providers,
    Platforms,
    PairLimits,
}

impl Listing {
    ghost use Rattle.std.specs.Prelude.{◌≡◌};
    ghost use Rattle.input_reports.specs.check_config.Known.{item_members, list_name};

    pub fn name(self) -> Name
        ensures { result ≡ list_name self }
    {
        match self {
            Listing::Operators => Name::Operators,
            Listing::Providers => Name::Providers,
            Listing::Platforms => Name::Platforms,
            Listing::PairLimits => Name::PairLimits,
        }
    }

    /// The members of its items, in the order in which they are read.
    fn members(self) -> &'static [Name]
        ensures { result.now ≡ item_members self }
    {
        match self {
            Listing::Operators => &[Name::Party, Name::Zone],
            Listing::Providers => &[Name::Party, Name::Limits],
            Listing::Platforms => &[Name::Name, Name::Parties, Name::Hub],
            Listing::PairLimits => &[Name::Operator, Name::Provider, Name::Currency, Name::Limit],
        }
    }
}

/// Which object of a configuration.
#[derive(Clone, Copy)]
pub enum ConfigObject {
    Whole,
    Item { list: Listing, index: usize },
    LimitOf { provider: usize, index: usize },
    Limits,
}

impl ConfigObject {
    ghost use Rattle.std.specs.Prelude.{◌≡◌};
    ghost use Rattle.input_reports.specs.check_config.Known.{members_of};

    /// The members of the object, in the order in which they are read.
    pub fn members(self) -> &'static [Name]
        ensures { result.now ≡ members_of self }
    {
        match self {
            ConfigObject::Whole => &[
                Name::Version,
                Name::Tolerance,
                Name::Currencies,
                Name::Operators,
                Name::Providers,
                Name::Platforms,
                Name::Limits,
                Name::PairLimits,
                Name::CreditWindow,
            ],
            ConfigObject::Item { list, .. } => list.members(),
            ConfigObject::LimitOf { .. } => &[Name::Currency, Name::Limit, Name::Hold],
            ConfigObject::Limits => &[
                Name::Cdrs,
                Name::Tariffs,
                Name::Entries,
                Name::Order,
                Name::Periods,
            ],
        }
    }
}

/// What stands before the name of a member in its path.
impl fmt::Display for ConfigObject {
    fn fmt<W: fmt::Write>(&self, f: &mut fmt::Formatter<W>) -> fmt::Result {
        match self {
            ConfigObject::Whole => Ok(()),
            ConfigObject::Item { list, index } => write!(f, "{}[{index}].", list.name().key()),
            ConfigObject::LimitOf { provider, index } => write!(
                f,
                "providers[{provider}].limits[{index}]."
            ),
            ConfigObject::Limits => write!(f, "limits."),
        }
    }
}

/// An object of a configuration, and its node.
#[derive(Drop)]
pub struct Found<'a> {
    pub object: ConfigObject,
    pub node: Node<'a>,
}

/// The configuration is of version 1, which has no pair limits and no credit window.
pub fn is_of_version_1(whole: &Node) -> bool
    ensures { IsTrue result ↔ (required (whole_number 1 2) Version whole.now ≡ Ok 1) }
{
    match fields::whole(whole, Name::Version, 1, 2) {
        Ok(version) => version == 1,
        Err(_) => false,
    }
}

/// The items of a member, and none where it is no array.
pub fn items<'a>(node: &Node<'a>, name: Name) -> Nodes<'a>
    ensures { result ≡ items_at name node.now }
{
    match node.get(name.key()) {
        Some(member) => member.items().unwrap_or(Nodes::none()),
        None => Nodes::none(),
    }
}

fn add_items<'a>(
    found: &mut Vec<Found<'a>>,
    whole: &Node<'a>,
    list: Listing,
) -> Result<(), AllocError> {
    for (index, node) in items(whole, list.name()).enumerate() {
        let object = ConfigObject::Item { list, index };
        found.push(Found { object, node })?;
    }
    Ok(())
}

fn add_limits_of<'a>(
    found: &mut Vec<Found<'a>>,
    provider: usize,
    node: &Node<'a>,
) -> Result<(), AllocError> {
    for (index, node) in items(node, Name::Limits).enumerate() {
        let object = ConfigObject::LimitOf { provider, index };
        found.push(Found { object, node })?;
    }
    Ok(())
}

fn add_limits_of_each<'a>(found: &mut Vec<Found<'a>>, whole: &Node<'a>) -> Result<(), AllocError> {
    for (provider, node) in items(whole, Name::Providers).enumerate() {
        add_limits_of(found, provider, &node)?;
    }
    Ok(())
}

fn add_limits<'a>(found: &mut Vec<Found<'a>>, whole: &Node<'a>) -> Result<(), AllocError> {
    if let Some(node) = whole.get(Name::Limits.key()) {
        let object = ConfigObject::Limits;
        found.push(Found { object, node })?;
    }
    Ok(())
}

fn add_objects<'a>(found: &mut Vec<Found<'a>>, whole: &Node<'a>) -> Result<(), AllocError> {
    add_items(found, whole, Listing::Operators)?;
    add_items(found, whole, Listing::Providers)?;
    add_limits_of_each(found, whole)?;
    add_items(found, whole, Listing::Platforms)?;
    add_limits(found, whole)?;
    if is_of_version_1(whole) {
        return Ok(());
    }
    add_items(found, whole, Listing::PairLimits)
}

/// The objects that are read within the configuration.
pub fn objects_in<'a>(alloc: Global, whole: &Node<'a>) -> Result<Vec<Found<'a>>, AllocError> {
    let mut found = Vec::new(alloc);
    match add_objects(&mut found, whole) {
        Ok(()) => Ok(found),
        Err(AllocError) => Err(AllocError),
    }
}
