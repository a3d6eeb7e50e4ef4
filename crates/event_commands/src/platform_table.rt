//! A table of the platforms of a configuration.

ghost use Rattle.std.specs.Prelude.{◌≡◌, find, option_copied, IfOk, OnOk};
ghost use Rattle.std.specs.Option.{option_or};
ghost use Rattle.indexmap.specs.IndexMap.{get};
ghost use Rattle.ocpi_types.specs.Config.{acts_for};
ghost use Rattle.ocpi_types.specs.Party.{same_party};
ghost use Rattle.ocpi_types.specs.declared.party.Party.{Party as AnyParty};
ghost use Rattle.event_commands.specs.Inner.PlatformTable.{first_name, name_if};

use indexmap::IndexMap;
use ocpi_json::ci_text::CiText;
use ocpi_types::Party;
use ocpi_types::config::Platform;
use std::alloc::{AllocError, Global};

// Adds the platform for each of its parties that has no platform yet.
fn add_parties(
    acting: &mut IndexMap<Party, CiText<36>>,
    platform: &Platform,
) -> Result<(), AllocError>
    ensures { OnOk result ((party : AnyParty) → get same_party acting.new party
        ≡ option_or (get same_party acting.old party) (name_if (acts_for platform.now party) platform.now.name)) }
{
    let parties = platform.parties.as_slice();
    for party in parties {
        if acting.contains_key(party) {
            continue;
        }
        acting.insert(*party, platform.name)?;
    }
    Ok(())
}

/// Returns the name of the first platform that acts for each party.
///
/// # Errors
///
/// `AllocError` if an allocation fails.
pub fn acting_platforms(
    alloc: Global,
    platforms: &[Platform],
) -> Result<IndexMap<Party, CiText<36>>, AllocError>
    ensures { IfOk result (λ acting. (party : AnyParty) → get same_party acting party
        ≡ first_name (λ platform. acts_for platform party) platforms.now) }
{
    let mut acting = IndexMap::new(alloc);
    for platform in platforms {
        add_parties(&mut acting, platform)?;
    }
    Ok(acting)
}

fn first_hub(platforms: &[Platform]) -> Option<&Platform>
    ensures { option_copied result ≡ find (λ platform. platform.hub) platforms.now }
{
    platforms.iter().find(|platform| platform.hub)
}

/// Returns the name of the first hub.
pub fn hub_name(platforms: &[Platform]) -> Option<CiText<36>>
    ensures { result ≡ first_name (λ platform. platform.hub) platforms.now }
{
    let hub = first_hub(platforms)?;
    Some(hub.name)
}
