//! What a line asks for.

ghost use Rattle.std.specs.Prelude.{◌≡◌, IfOk, IfErr, IsErrOf, Ok, Err, false};
ghost use Rattle.ocpi_json.specs.Faults.{Finds};
ghost use Rattle.ocpi_json.specs.Fields.{required, whole};
ghost use Rattle.ocpi_json.specs.Members.{inside};
ghost use Rattle.ocpi_json.specs.declared.fields.FieldFault.TheVariants as fault;
ghost use Rattle.ocpi_json.specs.declared.name.Name.TheVariants as name;
ghost use Rattle.ocpi_types.specs.Cdr.{cdr_at};
ghost use Rattle.plain_house.specs.Replies.{is_refusal_no_memory};
ghost use Rattle.request_lines.specs.RequestText.{authorize_at, close_at, exposure_at, find_at, post_at, release_at, settle_at, statement_at, tariff_ask_at, token_ask_at, ask_at, request_at, kind_or_rfid, request_of};

use super::line_room::LineRoom;
use cdr_checks::{
    Ask, Authorize, Close, ExposureOf, Find, Release, Request, Settlement, StatementOf,
};
use ocpi_json::fields::{self, FieldFault};
use ocpi_json::name::Name;
use ocpi_json::objects::{FromNode, FromText, read_inside, within, within_in};
use ocpi_json::{Expected, MemberFault, Node, ReadFault, Step};
use ocpi_types::{Cdr, KnownTariffs, Refusal, Shared, Token, TokenKind, members};
use std::alloc::Global;

/// The commands of request lines, as the member `do` names them.
#[derive(Clone, Copy, PartialEq, Eq)]
pub enum CommandName {
    PutTariff,
    PutToken,
    Authorize,
    Release,
    Post,
    Close,
    Settle,
    Exposure,
    Find,
    Statement,
}

impl FromText for CommandName {
    ghost use Rattle.ocpi_json.specs.declared.expected.Expected.TheVariants as expected;
    ghost use Rattle.request_lines.specs.CommandName.{command_named};

    ghost of_text = { command_named };

    ghost expects = { expected.Command };

    fn from_text(text: &str) -> Option<CommandName> {
        match text {
            "put_tariff" => Some(CommandName::PutTariff),
            "put_token" => Some(CommandName::PutToken),
            "authorize" => Some(CommandName::Authorize),
            "release" => Some(CommandName::Release),
            "post" => Some(CommandName::Post),
            "close" => Some(CommandName::Close),
            "settle" => Some(CommandName::Settle),
            "exposure" => Some(CommandName::Exposure),
            "find" => Some(CommandName::Find),
            "statement" => Some(CommandName::Statement),
            _ => None,
        }
    }

    fn expected() -> Expected {
        Expected::Command
    }
}

#[inline(never)]
#[tactic(auto, unfolding(crate::specs::RequestText::tariff_ask_at))]
fn read_tariff(alloc: Global, node: &Node) -> Result<Ask, FieldFault>
    ensures { Finds result (tariff_ask_at node.now) }
{
    let object = fields::object(node, Name::Tariff)?;
    let tariff = read_inside(alloc, Name::Tariff, &object)?;
    Ok(Ask::PutTariff(Shared::new(alloc, tariff)?))
}

#[inline(never)]
#[tactic(auto, unfolding(crate::specs::RequestText::token_ask_at))]
fn read_token(node: &Node) -> Result<Ask, FieldFault>
    ensures found { Finds result (token_ask_at node.now) }
    ensures never_gives_up { IsErrOf result fault.NoMemory → ⊥ }
{
    let object = fields::object(node, Name::Token)?;
    let token = within(Step::Member(Name::Token), Token::from_node(&object))?;
    Ok(Ask::PutToken(token))
}

fn kind_or_rfid(kind: Option<TokenKind>) -> TokenKind
    ensures { result ≡ kind_or_rfid kind }
{
    kind.unwrap_or(TokenKind::Rfid)
}

#[inline(never)]
#[tactic(auto, unfolding(crate::specs::RequestText::authorize_at))]
fn read_authorize(node: &Node) -> Result<Ask, FieldFault>
    ensures found { Finds result (authorize_at node.now) }
    ensures never_gives_up { IsErrOf result fault.NoMemory → ⊥ }
{
    let operator = members::party(node, Name::Operator)?;
    let provider = members::party(node, Name::Provider)?;
    let uid = fields::ci_text(node, Name::Uid)?;
    let kind = kind_or_rfid(members::token_kind_or_none(node, Name::Type)?);
    let currency = members::currency(node, Name::Currency)?;
    Ok(Ask::Authorize(Authorize {
        operator,
        provider,
        uid,
        kind,
        currency,
    }))
}

#[inline(never)]
#[tactic(auto, unfolding(crate::specs::RequestText::release_at))]
fn read_release(node: &Node) -> Result<Ask, FieldFault>
    ensures found { Finds result (release_at node.now) }
    ensures never_gives_up { IsErrOf result fault.NoMemory → ⊥ }
{
    let operator = members::party(node, Name::Operator)?;
    let provider = members::party(node, Name::Provider)?;
    let reference = fields::ci_text(node, Name::Reference)?;
    Ok(Ask::Release(Release {
        operator,
        provider,
        reference,
    }))
}

fn cdr_inside(alloc: Global, known: &mut KnownTariffs, object: &Node) -> Result<Cdr, FieldFault>
    ensures { Finds result (inside name.Cdr (cdr_at object.now)) }
{
    let read = Cdr::read_knowing(alloc, known, object);
    within_in(Step::Member(Name::Cdr), read)
}

#[inline(never)]
#[tactic(auto, unfolding(crate::specs::RequestText::post_at))]
fn read_post(alloc: Global, known: &mut KnownTariffs, node: &Node) -> Result<Ask, FieldFault>
    ensures { Finds result (post_at node.now) }
{
    let object = fields::object(node, Name::Cdr)?;
    let cdr = cdr_inside(alloc, known, &object)?;
    Ok(Ask::Post(Shared::new(alloc, cdr)?))
}

// 18 digits.
const MOST_PERIOD: u64 = 999_999_999_999_999_999;

fn period(node: &Node) -> Result<u64, MemberFault>
    ensures { result ≡ required (whole 0 999_999_999_999_999_999) name.Period node.now }
{
    fields::whole(node, Name::Period, 0, MOST_PERIOD)
}

#[inline(never)]
#[tactic(auto, unfolding(crate::specs::RequestText::close_at))]
fn read_close(node: &Node) -> Result<Ask, FieldFault>
    ensures found { Finds result (close_at node.now) }
    ensures never_gives_up { IsErrOf result fault.NoMemory → ⊥ }
{
    let period = period(node)?;
    Ok(Ask::Close(Close { period }))
}

#[inline(never)]
#[tactic(auto, unfolding(crate::specs::RequestText::settle_at))]
fn read_settle(node: &Node) -> Result<Ask, FieldFault>
    ensures found { Finds result (settle_at node.now) }
    ensures never_gives_up { IsErrOf result fault.NoMemory → ⊥ }
{
    let provider = members::party(node, Name::Provider)?;
    let currency = members::currency(node, Name::Currency)?;
    let period = period(node)?;
    Ok(Ask::Settle(Settlement {
        provider,
        currency,
        period,
    }))
}

#[inline(never)]
#[tactic(auto, unfolding(crate::specs::RequestText::exposure_at))]
fn read_exposure(node: &Node) -> Result<Ask, FieldFault>
    ensures found { Finds result (exposure_at node.now) }
    ensures never_gives_up { IsErrOf result fault.NoMemory → ⊥ }
{
    let provider = members::party(node, Name::Provider)?;
    let currency = members::currency(node, Name::Currency)?;
    Ok(Ask::Exposure(ExposureOf { provider, currency }))
}

#[inline(never)]
#[tactic(auto, unfolding(crate::specs::RequestText::find_at))]
fn read_find(node: &Node) -> Result<Ask, FieldFault>
    ensures found { Finds result (find_at node.now) }
    ensures never_gives_up { IsErrOf result fault.NoMemory → ⊥ }
{
    let operator = members::party(node, Name::Operator)?;
    let id = fields::ci_text(node, Name::Id)?;
    Ok(Ask::Find(Find { operator, id }))
}

#[inline(never)]
#[tactic(auto, unfolding(crate::specs::RequestText::statement_at))]
fn read_statement(node: &Node) -> Result<Ask, FieldFault>
    ensures found { Finds result (statement_at node.now) }
    ensures never_gives_up { IsErrOf result fault.NoMemory → ⊥ }
{
    let party = members::party(node, Name::Party)?;
    let period = period(node)?;
    Ok(Ask::Statement(StatementOf { party, period }))
}

fn read_ask(
    alloc: Global,
    known: &mut KnownTariffs,
    command: CommandName,
    node: &Node,
) -> Result<Ask, FieldFault>
    ensures { Finds result (ask_at command node.now) }
{
    match command {
        CommandName::PutTariff => read_tariff(alloc, node),
        CommandName::PutToken => read_token(node),
        CommandName::Authorize => read_authorize(node),
        CommandName::Release => read_release(node),
        CommandName::Post => read_post(alloc, known, node),
        CommandName::Close => read_close(node),
        CommandName::Settle => read_settle(node),
        CommandName::Exposure => read_exposure(node),
        CommandName::Find => read_find(node),
        CommandName::Statement => read_statement(node),
    }
}

/// Reads the request of a line's value.
///
/// # Errors
///
/// `Field` with the fault of the first member that is missing, of a wrong kind or out of bounds, `NoMemory` if an allocation fails.
#[tactic(auto, unfolding(crate::specs::RequestText::request_at))]
pub fn read_request(
    alloc: Global,
    known: &mut KnownTariffs,
    node: &Node,
) -> Result<Request, FieldFault>
    ensures { Finds result (request_at node.now) }
{
    let platform = fields::ci_text(node, Name::Platform)?;
    let command = fields::parsed(node, Name::Do)?;
    let ask = read_ask(alloc, known, command, node)?;
    Ok(Request { platform, ask })
}

/// Reads the request of a line.
///
/// # Errors
///
/// `Syntax` if the line is no JSON, and the errors of `read_request`.
#[tactic(auto, unfolding(crate::specs::RequestText::request_of))]
pub fn request_of(alloc: Global, room: &mut LineRoom, line: &[u8]) -> Result<Request, Refusal>
    ensures request { IfOk result (λ request. request_of line.now ≡ Ok request) }
    ensures refusal { IfErr result (λ refusal. is_refusal_no_memory refusal ≡ false → request_of line.now ≡ Err refusal) }
{
    let LineRoom { room, tariffs } = room;
    let read = match room.read(line) {
        Ok(read) => read,
        Err(ReadFault::Syntax) => return Err(Refusal::Syntax),
        Err(ReadFault::NoMemory) => return Err(Refusal::NoMemory),
    };
    match read_request(alloc, tariffs, &read.value()) {
        Ok(request) => Ok(request),
        Err(FieldFault::Field(fault)) => Err(Refusal::Field {
            name: fault.member.name(),
        }),
        Err(FieldFault::NoMemory) => Err(Refusal::NoMemory),
    }
}
