use super::party::Party;
use super::token::TokenKind;
use ocpi_json::ci_text::CiText;
use ocpi_json::name::Name;
use ocpi_json::objects::{FromNode, FromText};
use ocpi_json::{Expected, MemberFault, Node, fields};

/// How a session was authorised (OCPI 2.2.1, AuthMethod enum).
#[derive(Clone, Copy, PartialEq, Eq)]
pub enum AuthMethod {
    AuthRequest,
    Command,
    Whitelist,
}

/// The token that a session was charged with (OCPI 2.2.1, CdrToken object). Its `type` is the field `kind`.
#[derive(Clone, Copy)]
pub struct CdrToken {
    pub provider: Party,
    pub uid: CiText<36>,
    pub kind: TokenKind,
    pub contract_id: CiText<36>,
}

impl FromText for AuthMethod {
    ghost use Rattle.ocpi_types.specs.CdrToken.{method_of};
    ghost use Rattle.ocpi_json.specs.declared.expected.Expected.TheVariants as expected;

    ghost of_text = { method_of };

    ghost expects = { expected.AuthMethod };

    fn from_text(text: &str) -> Option<AuthMethod> {
        match text {
            "AUTH_REQUEST" => Some(AuthMethod::AuthRequest),
            "COMMAND" => Some(AuthMethod::Command),
            "WHITELIST" => Some(AuthMethod::Whitelist),
            _ => None,
        }
    }

    fn expected() -> Expected {
        Expected::AuthMethod
    }
}

impl FromNode for CdrToken {
    ghost use Rattle.ocpi_types.specs.CdrToken.{cdr_token_at};

    ghost at = { cdr_token_at };

    #[tactic(auto, unfolding(crate::specs::CdrToken::cdr_token_at))]
    fn from_node(node: &Node) -> Result<CdrToken, MemberFault> {
        let node = &node.pick(&[
            Name::CountryCode,
            Name::PartyId,
            Name::Uid,
            Name::Type,
            Name::ContractId,
        ]);
        let provider = Party::from_members(node)?;
        let uid = fields::ci_text(node, Name::Uid)?;
        let kind = fields::parsed(node, Name::Type)?;
        let contract_id = fields::ci_text(node, Name::ContractId)?;
        Ok(CdrToken {
            provider,
            uid,
            kind,
            contract_id,
        })
    }
}
