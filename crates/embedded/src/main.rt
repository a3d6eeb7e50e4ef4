//! A clearing house inside a program: five requests, and what they are answered.
#![tactic(auto)]

use ocpi_types::{Config, TryCopy};
use period_order::BookHouse;
use request_lines::{Device, run_script};

/// An operator and a provider with a credit limit of 100.0000 EUR, of which each authorisation holds 20.0000.
const CONFIG: &str = r#"{"version":1,"tolerance":100,"currencies":["EUR"],
    "operators":[{"party":"NL/CPA","zone":"CET-1CEST,M3.5.0,M10.5.0/3"}],
    "providers":[{"party":"NL/MSA","limits":[{"currency":"EUR","limit":1000000,"hold":200000}]}],
    "platforms":[{"name":"cpo","parties":["NL/CPA"]},{"name":"emp","parties":["NL/MSA"]},{"name":"hub","parties":[],"hub":true}]}"#;

/// A tariff of 0.25 EUR a kWh, a token, an authorisation, the CDR of the session, and the end of the period.
const REQUESTS: &str =
    r#"{"platform":"cpo","do":"put_tariff","tariff":{"country_code":"NL","party_id":"CPA","id":"T1","currency":"EUR","elements":[{"price_components":[{"type":"ENERGY","price":0.25,"step_size":1}]}],"last_updated":"2024-06-01T00:00:00Z"}}
{"platform":"emp","do":"put_token","token":{"country_code":"NL","party_id":"MSA","uid":"U1","type":"RFID","contract_id":"NL-MSA-C1","valid":true,"whitelist":"NEVER","last_updated":"2024-06-01T00:00:00Z"}}
{"platform":"cpo","do":"authorize","operator":"NL/CPA","provider":"NL/MSA","uid":"U1","currency":"EUR"}
{"platform":"cpo","do":"post","cdr":{"country_code":"NL","party_id":"CPA","id":"S1","start_date_time":"2024-07-01T10:00:00Z","end_date_time":"2024-07-01T11:00:00Z","cdr_token":{"country_code":"NL","party_id":"MSA","uid":"U1","type":"RFID","contract_id":"NL-MSA-C1"},"auth_method":"WHITELIST","cdr_location":{"id":"L1"},"currency":"EUR","tariffs":[{"country_code":"NL","party_id":"CPA","id":"T1","currency":"EUR","elements":[{"price_components":[{"type":"ENERGY","price":0.25,"step_size":1}]}],"last_updated":"2024-06-01T00:00:00Z"}],"charging_periods":[{"start_date_time":"2024-07-01T10:00:00Z","dimensions":[{"type":"ENERGY","volume":20}],"tariff_id":"T1"}],"total_cost":{"excl_vat":5.00},"total_energy":20,"total_time":1,"authorization_reference":"NLMSA-1","last_updated":"2024-07-01T11:05:00Z"}}
{"platform":"hub","do":"close","period":0}
"#;

fn main(rt: HostRuntime) -> anyhow::Result<()> {
    let alloc = rt.alloc();
    let config = Config::read(alloc, CONFIG.as_bytes())?;
    let mut house = BookHouse::new(alloc, config.copy(alloc)?)?;
    let mut requests = Device::new(REQUESTS.as_bytes());
    let mut answers = Device::new(rt.stdout());
    run_script(alloc, &mut requests, &mut answers, &config, &mut house)?;
    Ok(())
}
