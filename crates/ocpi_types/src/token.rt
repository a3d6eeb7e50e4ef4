use super::party::Party;
use jiff::Timestamp;
use ocpi_json::ci_text::CiText;
use ocpi_json::name::Name;
use ocpi_json::objects::{FromNode, FromText};
use ocpi_json::{Expected, MemberFault, Node, fields};

/// The type of a token (OCPI 2.2.1, TokenType enum).
#[derive(Clone, Copy, PartialEq, Eq, Hash)]
pub enum TokenKind {
    AdHocUser,
    AppUser,
    Other,
    Rfid,
}

/// A token of a provider (OCPI 2.2.1, Token object). Its `type` is the field `kind`; its `whitelist` decides nothing and
/// is not kept.
#[derive(Clone, Copy)]
pub struct Token {
    pub provider: Party,
    pub uid: CiText<36>,
    pub kind: TokenKind,
    pub contract_id: CiText<36>,
    pub valid: bool,
    pub last_updated: Timestamp,
}

impl TokenKind {
    ghost use Rattle.std.specs.Prelude.{◌≡◌};
    ghost use Rattle.ocpi_types.specs.TokenKind.{same_token_kind};

    /// The same type.
    pub fn is(self, other: TokenKind) -> bool
        ensures { result ≡ same_token_kind self other }
    {
        self == other
    }
}

impl FromText for TokenKind {
    ghost use Rattle.ocpi_types.specs.TokenKind.{token_kind_of};
    ghost use Rattle.ocpi_json.specs.declared.expected.Expected.TheVariants as expected;

    ghost of_text = { token_kind_of };

    ghost expects = { expected.TokenKind };

    fn from_text(text: &str) -> Option<TokenKind> {
        match text {
            "AD_HOC_USER" => Some(TokenKind::AdHocUser),
            "APP_USER" => Some(TokenKind::AppUser),
            "OTHER" => Some(TokenKind::Other),
            "RFID" => Some(TokenKind::Rfid),
            _ => None,
        }
    }

    fn expected() -> Expected {
        Expected::TokenKind
    }
}

impl FromNode for Token {
    ghost use Rattle.ocpi_types.specs.Token.{token_at};

    ghost at = { token_at };

    #[tactic(auto, unfolding(crate::specs::Token::token_at))]
    fn from_node(node: &Node) -> Result<Token, MemberFault> {
        let node = &node.pick(&[
            Name::CountryCode,
            Name::PartyId,
            Name::Uid,
            Name::Type,
            Name::ContractId,
            Name::Valid,
            Name::Whitelist,
            Name::LastUpdated,
        ]);
        let provider = Party::from_members(node)?;
        let uid = fields::ci_text(node, Name::Uid)?;
        let kind = fields::parsed(node, Name::Type)?;
        let contract_id = fields::ci_text(node, Name::ContractId)?;
        let valid = fields::flag(node, Name::Valid)?;
        fields::word(node, Name::Whitelist)?;
        let last_updated = fields::instant(node, Name::LastUpdated)?;
        Ok(Token {
            provider,
            uid,
            kind,
            contract_id,
            valid,
            last_updated,
        })
    }
}
