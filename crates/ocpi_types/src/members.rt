//! Members of these types, by name and kind.

ghost use Rattle.std.specs.Prelude.{◌≡◌, pos, ◌≤ℤ◌, unsigned_abs};
ghost use Rattle.ocpi_json.specs.Fields.{required, optional, whole};
ghost use Rattle.ocpi_json.specs.MemberFaults.{fault_at, member_of};
ghost use Rattle.ocpi_types.specs.Currency.{a_currency};
ghost use Rattle.ocpi_types.specs.Members.{ensure, quantity};
ghost use Rattle.ocpi_types.specs.Party.{a_party};
ghost use Rattle.ocpi_types.specs.TokenKind.{a_token_kind};

use super::bounded::AtMost;
use super::currency::Currency;
use super::party::Party;
use super::token::TokenKind;
use exact_money::Millionths;
use ocpi_json::name::Name;
use ocpi_json::{Expected, HasMembers, MemberFault, Step, fields};

/// A price or a volume of at least 0, in millionths.
pub type Quantity = AtMost<1_000_000_000_000_000>;

/// A party, written as `NL/CPA`.
pub fn party<'n, M: HasMembers<'n>>(node: &M, name: Name) -> Result<Party, MemberFault>
    ensures { result ≡ required a_party name (M.object node.now) }
{
    fields::parsed(node, name)
}

/// A currency by its code of three letters A to Z.
pub fn currency<'n, M: HasMembers<'n>>(node: &M, name: Name) -> Result<Currency, MemberFault>
    ensures { result ≡ required a_currency name (M.object node.now) }
{
    fields::parsed(node, name)
}

/// The type of a token, where the member may be missing or null.
pub fn token_kind_or_none<'n, M: HasMembers<'n>>(
    node: &M,
    name: Name,
) -> Result<Option<TokenKind>, MemberFault>
    ensures { result ≡ optional a_token_kind name (M.object node.now) }
{
    fields::parsed_or_none(node, name)
}

/// A whole number from `least` to `MOST`.
pub fn at_most<'n, const MOST: u64, M: HasMembers<'n>>(
    node: &M,
    name: Name,
    least: u8,
) -> Result<AtMost<MOST>, MemberFault>
    ensures { result ≡ required (whole least MOST) name (M.object node.now) }
{
    let value = fields::whole(node, name, least, MOST)?;
    match AtMost::new(value) {
        Some(value) => Ok(value),
        None => unreachable!(),
    }
}

/// The same, where the member may be missing or null.
pub fn at_most_or_none<'n, const MOST: u64, M: HasMembers<'n>>(
    node: &M,
    name: Name,
    least: u8,
) -> Result<Option<AtMost<MOST>>, MemberFault>
    ensures { result ≡ optional (whole least MOST) name (M.object node.now) }
{
    match fields::whole_or_none(node, name, least, MOST)? {
        Some(value) => Ok(AtMost::new(value)),
        None => Ok(None),
    }
}

fn quantity_from(number: Millionths) -> Quantity
    requires { pos 0 ≤ℤ number }
    ensures { result ≡ unsigned_abs number }
{
    AtMost::new(number.get().unsigned_abs()).unwrap()
}

/// A number of at least 0.
#[tactic(auto, using(crate::proofs::Quantities::quantity_at))]
pub fn quantity<'n, M: HasMembers<'n>>(node: &M, name: Name) -> Result<Quantity, MemberFault>
    ensures { result ≡ required quantity name (M.object node.now) }
{
    Ok(quantity_from(fields::unsigned(node, name)?))
}

/// The same, where the member may be missing or null.
#[tactic(auto, using(crate::proofs::Quantities::quantity_if_any))]
pub fn quantity_or_none<'n, M: HasMembers<'n>>(
    node: &M,
    name: Name,
) -> Result<Option<Quantity>, MemberFault>
    ensures { result ≡ optional quantity name (M.object node.now) }
{
    match fields::unsigned_or_none(node, name)? {
        Some(number) => Ok(Some(quantity_from(number))),
        None => Ok(None),
    }
}

/// Nothing where it holds, and else the fault of the member of that name, which has to be that.
pub fn ensure(holds: bool, name: Name, expected: Expected) -> Result<(), MemberFault>
    ensures { result ≡ ensure holds (fault_at (member_of name) expected) }
{
    if holds {
        Ok(())
    } else {
        Err(MemberFault::at(Step::Member(name), expected))
    }
}
