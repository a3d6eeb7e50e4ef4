use jiff::civil::DateTime;
use std::marker::Model;

/// When restrictions are judged: what a clock in the operator's zone shows, and the energy and the
/// time of the session so far.
#[derive(Drop)]
pub struct Moment {
    pub(crate) local: DateTime,
    /// In millionths of a kWh.
    pub(crate) energy: u128,
    pub(crate) seconds: u64,
}

impl Model for Moment {
    ghost use Rattle.jiff.specs.Words.{epoch_day, time_nanos};
    ghost use Rattle.tariff_elements.specs.LocalTime.{LocalMoment};

    ghost Value = { LocalMoment };

    ghost view = { λ moment. record {
      day = epoch_day moment.local.date;
      time = time_nanos moment.local.time;
      energy = moment.energy;
      seconds = moment.seconds;
    } };
}
