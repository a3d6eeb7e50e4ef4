//! The reference of an authorisation.

ghost use Rattle.std.specs.Prelude.{◌≡◌};
ghost use Rattle.plain_house.specs.House.{reference_text};

use arrayvec::ArrayString;
use itoa::Buffer;
use ocpi_json::ci_text::CiText;
use ocpi_types::Party;

/// The reference of a provider's authorisation of that number: at most 26 bytes, which are codes of two and of three
/// bytes, a hyphen and 20 digits.
pub fn reference(party: &Party, number: u64) -> CiText<36>
    ensures { result ≡ reference_text party.now number }
{
    let mut digits = Buffer::new();
    let mut text: ArrayString<36> = ArrayString::new();
    text.push_str(party.country_code.as_str());
    text.push_str(party.party_id.as_str());
    text.push_str("-");
    text.push_str(digits.format(number));
    CiText::new(text.as_str()).unwrap()
}
