//! What the sessions of charge detail records cost by their tariffs (OCPI 2.2.1, CDR object and Tariff object).
#![tactic(auto)]

mod charging;
mod laws;
mod measure;
mod price;
mod pricing;
mod tally;
mod volumes;

pub use charging::active_component;
pub use laws::{
    energy_splits_at_no_cost, rounded_is_half_up, same_cdrs_cost_the_same, up_to_step_is_least,
};
pub use measure::up_to_step;
pub use ocpi_types::Zone;
pub use price::{first_tariff, rate};
pub use pricing::{lacks_its_tariff, lacks_tariff};
pub use tally::Priced;
pub use volumes::{energy_of, volume_in};
