//! What is asked of the parties, the platform and the currency of a request.

ghost use Rattle.std.specs.Prelude.{◌≡◌};
ghost use Rattle.cdr_checks.specs.Asking.{is_a_hub, known_currency, known_operator, known_party, known_provider, lacks_right, may_act, no_operator};

use crate::cause::{Cause, Reason};
use crate::place::Place;
use ocpi_json::ci_text::CiText;
use ocpi_json::name::Name;
use ocpi_types::{Config, Currency, Party};

/// The cause that a party, which is at the place in the request, is no operator.
pub(crate) fn no_operator(place: Place, party: &Party) -> Cause
    ensures { result ≡ no_operator place party.now }
{
    Cause {
        place,
        reason: Reason::NoOperator(*party),
    }
}

/// Asks that a party, which is at the place in the request, is an operator.
///
/// # Errors
///
/// [`Reason::NoOperator`] if it is not.
pub(crate) fn known_operator(config: &Config, place: Place, party: &Party) -> Result<(), Cause>
    ensures { result ≡ known_operator config.now place party.now }
{
    if config.is_operator(party) {
        return Ok(());
    }
    Err(no_operator(place, party))
}

/// Asks that a party, which is at the place in the request, is a provider.
///
/// # Errors
///
/// [`Reason::NoProvider`] if it is not.
pub(crate) fn known_provider(config: &Config, place: Place, party: &Party) -> Result<(), Cause>
    ensures { result ≡ known_provider config.now place party.now }
{
    if config.is_provider(party) {
        return Ok(());
    }
    Err(Cause {
        place,
        reason: Reason::NoProvider(*party),
    })
}

/// Asks that a party, which is at the place in the request, is an operator or a provider.
///
/// # Errors
///
/// [`Reason::NoParty`] if it is not.
pub(crate) fn known_party(config: &Config, place: Place, party: &Party) -> Result<(), Cause>
    ensures { result ≡ known_party config.now place party.now }
{
    if config.is_party(party) {
        return Ok(());
    }
    Err(Cause {
        place,
        reason: Reason::NoParty(*party),
    })
}

fn lacks_right(config: &Config, platform: &CiText<36>, reason: Reason) -> Cause
    ensures { result ≡ lacks_right config.now platform.now reason }
{
    let reason = match config.platform(platform) {
        Some(_) => reason,
        None => Reason::UnknownPlatform(*platform),
    };
    Cause {
        place: Place::at(Name::Platform),
        reason,
    }
}

/// Asks that the platform acts for the party.
///
/// # Errors
///
/// [`Reason::UnknownPlatform`] if it is not configured, [`Reason::ActsNotFor`] if it acts for others only.
pub(crate) fn may_act(config: &Config, platform: &CiText<36>, party: &Party) -> Result<(), Cause>
    ensures { result ≡ may_act config.now platform.now party.now }
{
    if config.may_act_for(platform, party) {
        return Ok(());
    }
    let reason = Reason::ActsNotFor {
        platform: *platform,
        party: *party,
    };
    Err(lacks_right(config, platform, reason))
}

/// Asks that the platform is a hub.
///
/// # Errors
///
/// [`Reason::UnknownPlatform`] if it is not configured, [`Reason::NoHub`] if it is no hub.
pub fn is_a_hub(config: &Config, platform: &CiText<36>) -> Result<(), Cause>
    ensures { result ≡ is_a_hub config.now platform.now }
{
    if config.is_hub(platform) {
        return Ok(());
    }
    Err(lacks_right(config, platform, Reason::NoHub(*platform)))
}

/// Asks that a currency, which is at the place in the request, is configured.
///
/// # Errors
///
/// [`Reason::UnknownCurrency`] if it is not.
pub(crate) fn known_currency(
    config: &Config,
    place: Place,
    currency: &Currency,
) -> Result<(), Cause>
    ensures { result ≡ known_currency config.now place currency.now }
{
    if config.has_currency(currency) {
        return Ok(());
    }
    Err(Cause {
        place,
        reason: Reason::UnknownCurrency(*currency),
    })
}
