//! Numbers by which most values can be told apart.

ghost use Rattle.std.specs.Prelude.{◌≡◌, map, flat_map};
ghost use Rattle.json.specs.Tape.{node_token};
ghost use Rattle.ocpi_json.specs.Tokens.{summed, string_of, fingerprint_of};

use crate::node::Node;

// How many tokens count, of the first and of the last. An object of OCPI begins with its operator and its id, and ends with `last_updated`.
const FIRST: usize = 8;

const LAST: usize = 2;

fn summed(sum: u32, text: &[u8]) -> u32
    ensures { result ≡ summed sum text.now }
{
    let mut sum = sum;
    for byte in text {
        sum = sum.wrapping_mul(31).wrapping_add(*byte as u32);
    }
    sum
}

fn strings_summed(sum: u32, tokens: &[json::Node]) -> u32
    ensures { result ≡ summed sum (flat_map string_of (map node_token tokens.now)) }
{
    let mut sum = sum;
    for token in tokens {
        if let json::Node::String(text) = *token {
            sum = summed(sum, text.as_bytes());
        }
    }
    sum
}

impl<'a> Node<'a> {
    /// Returns a number that equal values share, and most other values do not.
    pub fn fingerprint(&self) -> u32
        ensures { result ≡ fingerprint_of self.now }
    {
        let tokens = self.place.tokens();
        let first = &tokens[..FIRST.min(tokens.len())];
        let last = &tokens[tokens.len().saturating_sub(LAST)..];
        strings_summed(strings_summed(0, first), last)
    }
}
