//! The hold that an authorisation places.

ghost use Rattle.std.specs.Prelude.{◌≡◌, ◌+◌, ◌≤◌, count_by, length, true};
ghost use Rattle.ocpi_json.specs.Folded.{same_folded};
ghost use Rattle.plain_house.specs.House.{hold_for, is_hold_of, next_reference, reference_text};

use super::Account;
use cdr_checks::Authorize;
use ocpi_json::ci_text::CiText;
use ocpi_types::{Config, Party};
use plain_house::{Hold, reference};

impl Account {
    fn holds_so_far(&self, provider: &Party) -> u64
        ensures value { result ≡ count_by (is_hold_of provider.now) self.now.entries }
        ensures bound { result ≤ length self.now.entries }
    {
        self.index.counts.holds.get(provider)
    }

    // The reference of the provider's next authorisation.
    fn next_reference(&self, config: &Config, provider: &Party) -> CiText<36>
        ensures value { result ≡ next_reference config.now provider.now self.now.entries }
        ensures numbered { same_folded result (reference_text provider.now (count_by (is_hold_of provider.now) self.now.entries + 1)) ≡ true }
    {
        let _entries = self.entries.len();
        let number = self.holds_so_far(provider) + 1;
        match config.provider(provider) {
            Some(configured) => reference(&configured.party, number),
            None => reference(provider, number),
        }
    }

    /// The hold that would be placed, under the provider's next reference.
    pub fn hold_for(&self, config: &Config, ask: &Authorize) -> Hold
        ensures value { result ≡ hold_for config.now ask.now self.now.entries }
        ensures numbered { same_folded result.reference (reference_text ask.now.provider (count_by (is_hold_of ask.now.provider) self.now.entries + 1)) ≡ true }
    {
        Hold {
            operator: ask.operator,
            provider: ask.provider,
            currency: ask.currency,
            amount: config.hold(&ask.provider, &ask.currency),
            reference: self.next_reference(config, &ask.provider),
        }
    }
}
