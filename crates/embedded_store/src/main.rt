//! A kept house inside a program: three requests, each on a disk before it is answered.
#![tactic(auto)]

use kept_house::{Unwatched, keep_house};
use line_streams::Stream;
use request_lines::Device;
use sqlite_disk::Memory;

/// An operator and a provider with a credit limit of 100.0000 EUR, of which each authorisation holds 20.0000.
const CONFIG: &str = r#"{"version":1,"tolerance":100,"currencies":["EUR"],
    "operators":[{"party":"NL/CPA","zone":"CET-1CEST,M3.5.0,M10.5.0/3"}],
    "providers":[{"party":"NL/MSA","limits":[{"currency":"EUR","limit":1000000,"hold":200000}]}],
    "platforms":[{"name":"cpo","parties":["NL/CPA"]},{"name":"emp","parties":["NL/MSA"]}]}"#;

/// A token, an authorisation, and what the provider still has of its limit.
const REQUESTS: &str =
    r#"{"platform":"emp","do":"put_token","token":{"country_code":"NL","party_id":"MSA","uid":"U1","type":"RFID","contract_id":"NL-MSA-C1","valid":true,"whitelist":"NEVER","last_updated":"2024-06-01T00:00:00Z"}}
{"platform":"cpo","do":"authorize","operator":"NL/CPA","provider":"NL/MSA","uid":"U1","currency":"EUR"}
{"platform":"emp","do":"exposure","provider":"NL/MSA","currency":"EUR"}
"#;

fn main(rt: HostRuntime) -> anyhow::Result<()> {
    let alloc = rt.alloc();
    // A disk in memory. `sqlite_std_file::open` opens a file, and `Some(n)` says that a client has n answers of an earlier run.
    let disk = Memory::new(alloc);
    let mut requests = Device::new(REQUESTS.as_bytes());
    let mut answers = Device::new(rt.stdout());
    let kept = keep_house::<Stream, _, _, _, _>(
        alloc,
        disk,
        "example",
        CONFIG.as_bytes(),
        true,
        None,
        &mut requests,
        &mut answers,
        &mut Unwatched,
    );
    kept.result?;
    Ok(())
}
