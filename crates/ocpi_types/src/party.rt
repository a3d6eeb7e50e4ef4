ghost use Rattle.std.specs.Prelude.{◌≡◌, ◌≤◌, length, true};
ghost use Rattle.std.specs.Char.{is_ascii_alphabetic, is_ascii_alphanumeric};
ghost use Rattle.std.specs.List.{list_all};
ghost use Rattle.ocpi_json.specs.Folded.{is_printable};
ghost use Rattle.ocpi_types.specs.Party.{same_party, is_party, party_of};

use ocpi_json::ci_text::CiText;
use ocpi_json::name::Name;
use ocpi_json::objects::{FromNode, FromText};
use ocpi_json::{Expected, HasMembers, MemberFault, Node, fields};
use std::fmt;

/// A party by its country code and party id (OCPI 2.2.1, 'Credentials': ISO 3166 country code and party id), both
/// case insensitive.
#[derive(Clone, Copy, PartialEq, Eq, PartialOrd, Ord, Hash)]
pub struct Party {
    pub country_code: CiText<2>,
    pub party_id: CiText<3>,
}

fn are_letters(text: &[u8]) -> bool
    ensures { result ≡ list_all is_ascii_alphabetic text.now }
{
    text.iter().all(|byte| byte.is_ascii_alphabetic())
}

fn are_letters_or_digits(text: &[u8]) -> bool
    ensures { result ≡ list_all is_ascii_alphanumeric text.now }
{
    text.iter().all(|byte| byte.is_ascii_alphanumeric())
}

#[tactic(auto, unfolding(crate::specs::Party::is_party))]
fn is_party(text: &[u8]) -> bool
    ensures { result ≡ is_party text.now }
{
    text.len() == 6
        && are_letters(&text[..2])
        && text[2] == b'/'
        && are_letters_or_digits(&text[3..])
}

fn printable<const MOST: usize>(text: &str) -> CiText<MOST>
    requires printable { is_printable text.now ≡ true }
    requires fits { length text.now ≤ MOST }
    ensures { result ≡ text.now }
{
    CiText::new(text).unwrap()
}

impl Party {
    ghost use Rattle.ocpi_types.specs.Party.{party_at};

    /// Reads the party of an object, by its members `country_code` and `party_id`.
    ///
    /// # Errors
    ///
    /// The fault of the first of the two that is missing or of a wrong kind.
    #[tactic(auto, unfolding(crate::specs::Party::party_at))]
    pub fn from_members<'n, M: HasMembers<'n>>(node: &M) -> Result<Party, MemberFault>
        ensures { result ≡ party_at (M.object node.now) }
    {
        let country_code = fields::ci_text(node, Name::CountryCode)?;
        let party_id = fields::ci_text(node, Name::PartyId)?;
        Ok(Party {
            country_code,
            party_id,
        })
    }

    /// The same party, but for the case of letters.
    pub fn is(&self, other: &Party) -> bool
        ensures { result ≡ same_party self.now other.now }
    {
        self == other
    }

    /// The party that a text as `NL/CPA` names: two ASCII letters, `/` and three ASCII letters or digits.
    #[tactic(auto, unfolding(crate::specs::Party::party_of))]
    pub fn read(text: &str) -> Option<Party>
        ensures { result ≡ party_of text.now }
    {
        if !is_party(text.as_bytes()) {
            return None;
        }
        Some(Party {
            country_code: printable(&text[..2]),
            party_id: printable(&text[3..]),
        })
    }
}

impl FromText for Party {
    ghost use Rattle.ocpi_types.specs.Party.{party_of};
    ghost use Rattle.ocpi_json.specs.declared.expected.Expected.TheVariants as expected;

    ghost of_text = { party_of };

    ghost expects = { expected.Party };

    fn from_text(text: &str) -> Option<Party> {
        Party::read(text)
    }

    fn expected() -> Expected {
        Expected::Party
    }
}

impl FromNode for Party {
    ghost use Rattle.ocpi_types.specs.Party.{party_at};

    ghost at = { party_at };

    fn from_node(node: &Node) -> Result<Party, MemberFault> {
        Party::from_members(node)
    }
}

impl fmt::Display for Party {
    ghost use Rattle.std.specs.Prelude.{Some};
    ghost use Rattle.ocpi_types.specs.Party.{party_text};

    ghost output = { λ party. Some (party_text party) };

    fn fmt<W: fmt::Write>(&self, f: &mut fmt::Formatter<W>) -> fmt::Result {
        let country_code = self.country_code.as_str();
        let party_id = self.party_id.as_str();
        write!(f, "{country_code}/{party_id}")
    }
}
