//! Values that are kept beyond their lines.

ghost use Rattle.std.specs.Prelude.{◌≡◌, ◌↔◌, length, true, IfOk};
ghost use Rattle.json.specs.Tree.{json_tokens};
ghost use Rattle.ocpi_json.specs.Tokens.{texts_in};

use crate::kept_tokens::KeptTokens;
use crate::node::Node;
use std::alloc::{AllocError, Global};
use std::marker::Model;

/// A value of a line that went by: a copy of its tokens, which does not borrow the line.
#[derive(Drop)]
pub struct KeptValue {
    tokens: KeptTokens,
}

impl Model for KeptValue {
    ghost use Rattle.json.specs.Json.{Json as Data};
    ghost use Rattle.ocpi_json.specs.Inner.Begun.{data_code};
    ghost use Rattle.ocpi_json.specs.Inner.Kept.{kept_value, Keeps};

    ghost Value = { Data };

    ghost coded = { data_code };

    ghost view = { λ k. kept_value k.tokens.marks.items k.tokens.texts.items };

    ghost invariant = { λ k. Keeps k.tokens.marks.items k.tokens.texts.items };
}

impl KeptValue {
    /// Copies a value.
    ///
    /// # Errors
    ///
    /// `AllocError` if an allocation fails.
    pub fn of(alloc: Global, node: &Node) -> Result<KeptValue, AllocError>
        ensures { IfOk result (λ kept. kept ≡ node.now) }
    {
        let tokens = KeptTokens::of(alloc, node.place.tokens())?;
        Ok(KeptValue { tokens })
    }

    /// Whether it is the value of the node. Members in another order, or a number that is written otherwise, are another value.
    pub fn is(&self, node: &Node) -> bool
        ensures { (result ≡ true) ↔ (self.now ≡ node.now) }
    {
        self.tokens.are(node.place.tokens())
    }

    /// The number of its tokens.
    pub fn token_count(&self) -> usize
        ensures { result ≡ length (json_tokens self.now) }
    {
        self.tokens.marks.len()
    }

    /// The bytes of the texts of its tokens.
    pub fn text_bytes(&self) -> usize
        ensures { result ≡ length (texts_in self.now) }
    {
        self.tokens.texts.len()
    }
}
