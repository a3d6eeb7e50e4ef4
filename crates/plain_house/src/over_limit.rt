//! Exposures that would be above a limit.

ghost use Rattle.std.specs.Prelude.{◌≡◌, ◌<◌, ◌^◌};
ghost use Rattle.plain_house.specs.OverLimit.{over};

use exact_money::Amount;
use ocpi_json::same::Same;

/// An exposure that would be above its limit. `pair` is true if it is the limit of one operator.
#[derive(Clone, Copy)]
pub struct OverLimit {
    pub exposure: Amount,
    pub limit: Amount,
    pub pair: bool,
}

impl Same for OverLimit {
    fn is_same(&self, other: &OverLimit) -> bool {
        self.exposure.is_same(&other.exposure)
            && self.limit.is_same(&other.limit)
            && self.pair.is_same(&other.pair)
    }
}

/// An exposure that is above its limit, both in ten-thousandths.
pub fn over(limit: u64, exposure: u64, pair: bool) -> Option<OverLimit>
    requires limit { limit < 2 ^ 63 }
    requires exposure { exposure < 2 ^ 63 }
    ensures { result ≡ over limit exposure pair }
{
    if limit < exposure {
        Some(OverLimit {
            exposure: Amount::from_ten_thousandths(exposure as i64),
            limit: Amount::from_ten_thousandths(limit as i64),
            pair,
        })
    } else {
        None
    }
}
