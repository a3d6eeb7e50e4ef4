ghost use Rattle.std.specs.Prelude.{◌≡◌, MatchResult, Ok, Err, IfOk};
ghost use Rattle.cdr_checks.specs.HandedBack.{handed_back};
ghost use Rattle.cdr_checks.specs.Admission.{ask_admission, authorize_admission, close_admission, exposure_admission, find_admission, judged, post_admission, put_tariff_admission, put_token_admission, release_admission, settle_admission, statement_admission, tariff_with_bound, IsAdmitted};

use super::asking::{
    is_a_hub, known_currency, known_operator, known_party, known_provider, may_act,
};
use super::cause::{Cause, Reason};
use super::cdr_admission::check;
use super::place::Place;
use super::request::{
    Ask, Authorize, Close, Command, ExposureOf, Find, Release, Request, Settlement, StatementOf,
};
use ocpi_json::ci_text::CiText;
use ocpi_json::name::Name;
use ocpi_types::{Cdr, Config, Shared, Tariff, Token};
use tariff_elements::unsupported;

fn tariff_with_bound(element: usize, bound: Name) -> Cause
    ensures { result ≡ tariff_with_bound (element, bound) }
{
    Cause {
        place: Place::restriction_of_tariff(element, bound),
        reason: Reason::NotSupported,
    }
}

fn ensure_tariff(config: &Config, platform: &CiText<36>, tariff: &Tariff) -> Result<(), Cause>
    ensures { MatchResult result (λ _. put_tariff_admission config.now platform.now tariff.now ≡ Ok (Command.PutTariff tariff.now))
        (λ cause. put_tariff_admission config.now platform.now tariff.now ≡ Err cause) }
{
    known_operator(config, Place::at(Name::Tariff), &tariff.operator)?;
    may_act(config, platform, &tariff.operator)?;
    let place = Place::inside(Name::Tariff, Name::Currency);
    known_currency(config, place, &tariff.currency)?;
    match unsupported(tariff) {
        Some((element, bound)) => Err(tariff_with_bound(element, bound)),
        None => Ok(()),
    }
}

#[inline(never)]
fn put_tariff(
    config: &Config,
    platform: &CiText<36>,
    tariff: Shared<Tariff>,
) -> Result<Command, (Ask, Cause)>
    ensures { result ≡ handed_back (Ask.PutTariff tariff) (put_tariff_admission config.now platform.now tariff) }
{
    match ensure_tariff(config, platform, &tariff) {
        Ok(()) => Ok(Command::PutTariff(tariff)),
        Err(cause) => Err((Ask::PutTariff(tariff), cause)),
    }
}

#[inline(never)]
fn put_token(config: &Config, platform: &CiText<36>, token: &Token) -> Result<Command, Cause>
    ensures { result ≡ put_token_admission config.now platform.now token.now }
{
    known_provider(config, Place::at(Name::Token), &token.provider)?;
    may_act(config, platform, &token.provider)?;
    Ok(Command::PutToken(*token))
}

#[inline(never)]
fn authorize(
    config: &Config,
    platform: &CiText<36>,
    authorize: &Authorize,
) -> Result<Command, Cause>
    ensures { result ≡ authorize_admission config.now platform.now authorize.now }
{
    known_operator(config, Place::at(Name::Operator), &authorize.operator)?;
    known_provider(config, Place::at(Name::Provider), &authorize.provider)?;
    may_act(config, platform, &authorize.operator)?;
    known_currency(config, Place::at(Name::Currency), &authorize.currency)?;
    Ok(Command::Authorize(*authorize))
}

#[inline(never)]
fn release(config: &Config, platform: &CiText<36>, release: &Release) -> Result<Command, Cause>
    ensures { result ≡ release_admission config.now platform.now release.now }
{
    known_operator(config, Place::at(Name::Operator), &release.operator)?;
    known_provider(config, Place::at(Name::Provider), &release.provider)?;
    may_act(config, platform, &release.operator)?;
    Ok(Command::Release(*release))
}

#[inline(never)]
fn exposure(config: &Config, platform: &CiText<36>, exposure: &ExposureOf) -> Result<Command, Cause>
    ensures { result ≡ exposure_admission config.now platform.now exposure.now }
{
    known_provider(config, Place::at(Name::Provider), &exposure.provider)?;
    may_act(config, platform, &exposure.provider)?;
    known_currency(config, Place::at(Name::Currency), &exposure.currency)?;
    Ok(Command::Exposure(*exposure))
}

#[inline(never)]
fn post(config: &Config, platform: &CiText<36>, cdr: Shared<Cdr>) -> Result<Command, (Ask, Cause)>
    ensures { result ≡ handed_back (Ask.Post cdr) (post_admission config.now platform.now cdr) }
{
    match check(config, platform, cdr) {
        Ok(checked) => Ok(Command::Post(checked)),
        Err((cdr, cause)) => Err((Ask::Post(cdr), cause)),
    }
}

#[inline(never)]
fn find(config: &Config, platform: &CiText<36>, find: &Find) -> Result<Command, Cause>
    ensures { result ≡ find_admission config.now platform.now find.now }
{
    known_operator(config, Place::at(Name::Operator), &find.operator)?;
    may_act(config, platform, &find.operator)?;
    Ok(Command::Find(*find))
}

#[inline(never)]
fn close(config: &Config, platform: &CiText<36>, close: &Close) -> Result<Command, Cause>
    ensures { result ≡ close_admission config.now platform.now close.now }
{
    is_a_hub(config, platform)?;
    Ok(Command::Close(*close))
}

#[inline(never)]
fn settle(config: &Config, platform: &CiText<36>, settlement: &Settlement) -> Result<Command, Cause>
    ensures { result ≡ settle_admission config.now platform.now settlement.now }
{
    known_provider(config, Place::at(Name::Provider), &settlement.provider)?;
    is_a_hub(config, platform)?;
    known_currency(config, Place::at(Name::Currency), &settlement.currency)?;
    Ok(Command::Settle(*settlement))
}

#[inline(never)]
fn statement(
    config: &Config,
    platform: &CiText<36>,
    statement: &StatementOf,
) -> Result<Command, Cause>
    ensures { result ≡ statement_admission config.now platform.now statement.now }
{
    known_party(config, Place::at(Name::Party), &statement.party)?;
    may_act(config, platform, &statement.party)?;
    Ok(Command::Statement(*statement))
}

// What was asked for beside the cause.
fn handed_back(ask: Ask, admitted: Result<Command, Cause>) -> Result<Command, (Ask, Cause)>
    ensures { result ≡ handed_back ask admitted }
{
    match admitted {
        Ok(command) => Ok(command),
        Err(cause) => Err((ask, cause)),
    }
}

fn admit_ask(config: &Config, platform: &CiText<36>, ask: Ask) -> Result<Command, (Ask, Cause)>
    ensures { result ≡ handed_back ask (ask_admission config.now platform.now ask) }
{
    match ask {
        Ask::PutTariff(tariff) => put_tariff(config, platform, tariff),
        Ask::PutToken(token) => {
            let admitted = put_token(config, platform, &token);
            handed_back(Ask::PutToken(token), admitted)
        }
        Ask::Authorize(asked) => {
            let admitted = authorize(config, platform, &asked);
            handed_back(Ask::Authorize(asked), admitted)
        }
        Ask::Release(asked) => {
            let admitted = release(config, platform, &asked);
            handed_back(Ask::Release(asked), admitted)
        }
        Ask::Post(cdr) => post(config, platform, cdr),
        Ask::Close(asked) => {
            let admitted = close(config, platform, &asked);
            handed_back(Ask::Close(asked), admitted)
        }
        Ask::Settle(asked) => {
            let admitted = settle(config, platform, &asked);
            handed_back(Ask::Settle(asked), admitted)
        }
        Ask::Exposure(asked) => {
            let admitted = exposure(config, platform, &asked);
            handed_back(Ask::Exposure(asked), admitted)
        }
        Ask::Find(asked) => {
            let admitted = find(config, platform, &asked);
            handed_back(Ask::Find(asked), admitted)
        }
        Ask::Statement(asked) => {
            let admitted = statement(config, platform, &asked);
            handed_back(Ask::Statement(asked), admitted)
        }
    }
}

/// Returns the command of a request that passes each test of its kind.
///
/// # Errors
///
/// The request as it was, and the cause of the first test that fails, and so the refusal.
#[tactic(auto, unfolding(crate::specs::Admission::judged, crate::specs::Admission::admission, crate::specs::Admission::IsAdmitted))]
pub fn admit(config: &Config, request: Request) -> Result<Command, (Request, Cause)>
    ensures judged { result ≡ handed_back request (judged config.now request) }
    ensures admitted { IfOk result (λ command. IsAdmitted config.now command) }
{
    let Request { platform, ask } = request;
    match admit_ask(config, &platform, ask) {
        Ok(command) => Ok(command),
        Err((ask, cause)) => Err((Request { platform, ask }, cause)),
    }
}
