//! The platform that may ask for something.

ghost use Rattle.std.specs.Prelude.{◌≡◌, ℕ, List, true, false, Ok, IfOk, IfSome, IfNone};
ghost use Rattle.cdr_checks.specs.Admission.{IsAdmitted, admission};
ghost use Rattle.cdr_checks.specs.declared.request.Command.{Command as AnyCommand};
ghost use Rattle.ocpi_types.specs.Config.{is_hub, may_act_for};
ghost use Rattle.event_commands.specs.AskedAgain.{has_right};

use super::platform_table::{acting_platforms, hub_name};
use cdr_checks::{Ask, Command, Request, admit};
use indexmap::IndexMap;
use ocpi_json::ci_text::CiText;
use ocpi_types::{Config, Party};
use std::alloc::{AllocError, Global};
use std::marker::Model;

/// The platforms of a configuration, found by the party that they act for without a walk over all of them.
#[derive(Drop)]
pub struct Platforms {
    config: Config,
    acting: IndexMap<Party, CiText<36>>,
    hub: Option<CiText<36>>,
}

impl Model for Platforms {
    ghost use Rattle.ocpi_types.specs.declared.config.Config.{Config as AnyConfig};
    ghost use Rattle.event_commands.specs.Inner.PlatformTable.{IsTableOf};

    ghost Value = { AnyConfig };

    ghost view = { λ platforms. platforms.config };

    ghost invariant = { λ platforms. IsTableOf platforms.config platforms.acting platforms.hub };
}

impl Platforms {
    /// Returns the platforms of the configuration.
    ///
    /// # Errors
    ///
    /// `AllocError` if an allocation fails.
    pub fn new(alloc: Global, config: Config) -> Result<Platforms, AllocError>
        ensures { IfOk result (λ platforms. platforms ≡ config) }
    {
        let platforms = config.platforms.as_slice();
        let acting = acting_platforms(alloc, platforms)?;
        let hub = hub_name(platforms);
        Ok(Platforms {
            config,
            acting,
            hub,
        })
    }

    fn acting_for(&self, party: &Party) -> Option<CiText<36>>
        ensures some { IfSome result (λ name. may_act_for self.now name party.now ≡ true) }
        ensures none { IfNone result ((name : List ℕ) → may_act_for self.now name party.now ≡ false) }
    {
        self.acting.get(party).copied()
    }

    fn hub(&self) -> Option<CiText<36>>
        ensures some { IfSome result (λ name. is_hub self.now name ≡ true) }
        ensures none { IfNone result ((name : List ℕ) → is_hub self.now name ≡ false) }
    {
        self.hub
    }

    /// Returns the name of a platform that has the right to ask for this, and `None` if no platform has it.
    pub fn platform_for(&self, asked: &Ask) -> Option<CiText<36>>
        ensures some { IfSome result (λ name. has_right self.now asked.now name ≡ true) }
        ensures none { IfNone result ((name : List ℕ) → has_right self.now asked.now name ≡ false) }
    {
        match asked {
            Ask::PutTariff(tariff) => self.acting_for(&tariff.operator),
            Ask::PutToken(token) => self.acting_for(&token.provider),
            Ask::Authorize(authorize) => self.acting_for(&authorize.operator),
            Ask::Release(release) => self.acting_for(&release.operator),
            Ask::Post(cdr) => self.acting_for(&cdr.operator),
            Ask::Close(_) | Ask::Settle(_) => self.hub(),
            Ask::Exposure(exposure) => self.acting_for(&exposure.provider),
            Ask::Find(find) => self.acting_for(&find.operator),
            Ask::Statement(statement) => self.acting_for(&statement.party),
        }
    }

    /// Returns the command of this request from a platform with the right, and `None` if it is admitted from no platform.
    pub fn admitted_for(&self, asked: Ask) -> Option<Command>
        ensures some { IfSome result (λ command. (platform : List ℕ) × (admission self.now (record { platform = platform; ask = asked }) ≡ Ok command)) }
        ensures admitted { IfSome result (λ command. IsAdmitted self.now command) }
        ensures none { IfNone result ((platform : List ℕ) (command : AnyCommand) → admission self.now (record { platform = platform; ask = asked }) ≡ Ok command → ⊥) }
    {
        match self.platform_for(&asked) {
            Some(platform) => admitted_by(&self.config, platform, asked),
            None => None,
        }
    }
}

// Returns the command of this request from a platform with the right, and `None` if it is admitted from no platform.
#[tactic(auto, unfolding(cdr_checks::specs::Admission::admission))]
fn admitted_by(config: &Config, platform: CiText<36>, asked: Ask) -> Option<Command>
    requires { has_right config.now asked platform ≡ true }
    ensures some { IfSome result (λ command. admission config.now (record { platform = platform; ask = asked }) ≡ Ok command) }
    ensures admitted { IfSome result (λ command. IsAdmitted config.now command) }
    ensures none { IfNone result ((name : List ℕ) (command : AnyCommand) → admission config.now (record { platform = name; ask = asked }) ≡ Ok command → ⊥) }
{
    let request = Request {
        platform,
        ask: asked,
    };
    match admit(config, request) {
        Ok(command) => Some(command),
        Err((_request, _cause)) => None,
    }
}
