//! What a line of a stream asks for.

ghost use Rattle.std.specs.Prelude.{◌≡◌, IfOk, IfErr, Ok, Err, false};
ghost use Rattle.ocpi_json.specs.Faults.{Finds};
ghost use Rattle.plain_house.specs.Replies.{is_refusal_no_memory};
ghost use Rattle.line_streams.specs.Asked.{asked_at, asked_of, change_at, changes_at, has_hub, is_change, line_at, requests_at};
ghost use Rattle.line_streams.specs.Stream.{asking};

use crate::request_id::RequestId;
use cdr_checks::Request;
use ocpi_json::ci_text::CiText;
use ocpi_json::fields::{self, FieldFault};
use ocpi_json::name::Name;
use ocpi_json::objects::{FromText, read_inside};
use ocpi_json::{Expected, MemberFault, Node, ReadFault, Step};
use ocpi_types::{Config, KnownTariffs, Refusal};
use request_lines::{LineRoom, read_request};
use std::alloc::Global;

/// The command of a change, as the member `do` names it.
#[derive(Clone, Copy, PartialEq, Eq)]
pub enum ChangeName {
    Configure,
}

impl FromText for ChangeName {
    ghost use Rattle.ocpi_json.specs.declared.expected.Expected.TheVariants as expected;
    ghost use Rattle.line_streams.specs.Asked.{change_named};

    ghost of_text = { change_named };

    ghost expects = { expected.Change };

    fn from_text(text: &str) -> Option<ChangeName> {
        match text {
            "configure" => Some(ChangeName::Configure),
            _ => None,
        }
    }

    fn expected() -> Expected {
        Expected::Change
    }
}

/// A change of the configuration, and the platform that asks for it.
#[derive(Drop)]
pub struct Change {
    pub platform: CiText<36>,
    pub config: Config,
}

/// A request, or a change of the configuration.
#[derive(Drop)]
pub enum Asked {
    Request(Request),
    Change(Change),
}

impl Asked {
    ghost use Rattle.std.specs.Prelude.{◌≡◌};
    ghost use Rattle.line_streams.specs.Stream.{asking};

    /// Returns the name of the platform that asks.
    pub fn platform(&self) -> CiText<36>
        ensures { result ≡ asking self.now }
    {
        match self {
            Asked::Request(request) => request.platform,
            Asked::Change(change) => change.platform,
        }
    }
}

/// What a line asks for, and its request id if it has one.
#[derive(Drop)]
pub struct AskedLine {
    pub id: Option<RequestId>,
    pub asked: Asked,
}

fn is_change(node: &Node) -> bool
    ensures { result ≡ is_change node.now }
{
    fields::parsed::<ChangeName, _>(node, Name::Do).is_ok()
}

fn has_hub(config: &Config) -> bool
    ensures { result ≡ has_hub config.now }
{
    config
        .platforms
        .as_slice()
        .iter()
        .any(|platform| platform.hub)
}

#[inline(never)]
#[tactic(auto, unfolding(crate::specs::Asked::change_at))]
fn read_change(alloc: Global, node: &Node) -> Result<Change, FieldFault>
    ensures { Finds result (change_at node.now) }
{
    let platform = fields::ci_text(node, Name::Platform)?;
    let object = fields::object(node, Name::Configuration)?;
    let config = read_inside(alloc, Name::Configuration, &object)?;
    if !has_hub(&config) {
        let fault = MemberFault::at(Step::Member(Name::Platforms), Expected::Hub);
        let around = Step::Member(Name::Configuration);
        return Err(FieldFault::Field(fault.seen_from(around)));
    }
    Ok(Change { platform, config })
}

fn read_changes(alloc: Global, node: &Node) -> Result<Asked, FieldFault>
    ensures { Finds result (changes_at node.now) }
{
    let change = read_change(alloc, node)?;
    Ok(Asked::Change(change))
}

fn read_requests(alloc: Global, known: &mut KnownTariffs, node: &Node) -> Result<Asked, FieldFault>
    ensures { Finds result (requests_at node.now) }
{
    let request = read_request(alloc, known, node)?;
    Ok(Asked::Request(request))
}

fn read_asked(alloc: Global, known: &mut KnownTariffs, node: &Node) -> Result<Asked, FieldFault>
    ensures { Finds result (asked_at node.now) }
{
    if is_change(node) {
        read_changes(alloc, node)
    } else {
        read_requests(alloc, known, node)
    }
}

/// Reads what a line's value asks for, and its request id.
///
/// # Errors
///
/// `Field` with the fault of the first member that is missing, of a wrong kind or out of bounds, the request id before all others,
/// `NoMemory` if an allocation fails.
pub fn read_asked_line(
    alloc: Global,
    known: &mut KnownTariffs,
    node: &Node,
) -> Result<AskedLine, FieldFault>
    ensures { Finds result (line_at node.now) }
{
    let id = fields::parsed_or_none(node, Name::RequestId)?;
    let asked = read_asked(alloc, known, node)?;
    Ok(AskedLine { id, asked })
}

/// Reads what a line asks for, and its request id.
///
/// # Errors
///
/// `Syntax` if the line is no JSON, and the errors of `read_asked_line`, a fault as the name of its member.
#[tactic(auto, unfolding(crate::specs::Asked::asked_of))]
pub fn asked_of(alloc: Global, room: &mut LineRoom, line: &[u8]) -> Result<AskedLine, Refusal>
    ensures asked { IfOk result (λ asked. asked_of line.now ≡ Ok asked) }
    ensures refusal { IfErr result (λ refusal. is_refusal_no_memory refusal ≡ false → asked_of line.now ≡ Err refusal) }
{
    let LineRoom { room, tariffs } = room;
    let read = match room.read(line) {
        Ok(read) => read,
        Err(ReadFault::Syntax) => return Err(Refusal::Syntax),
        Err(ReadFault::NoMemory) => return Err(Refusal::NoMemory),
    };
    match read_asked_line(alloc, tariffs, &read.value()) {
        Ok(asked) => Ok(asked),
        Err(FieldFault::Field(fault)) => Err(Refusal::Field {
            name: fault.member.name(),
        }),
        Err(FieldFault::NoMemory) => Err(Refusal::NoMemory),
    }
}
