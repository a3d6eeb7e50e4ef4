//! A script whose lines several threads read.

ghost use Rattle.std.specs.Prelude.{◌≡◌, ◌<◌, OnOk, IfErr, IfSome, MatchResult, true, false};
ghost use Rattle.request_lines.specs.Answering.{is_read_fault, is_write_fault};
ghost use Rattle.request_lines.specs.Script.{script_rule};
ghost use Rattle.request_lines.specs.Together.{HasRunTogether};

use crate::ahead::ReadAhead;
use crate::scripted::ScriptedAhead;
use ocpi_types::{Config, Shared, TryCopy};
use plain_house::Sequential;
use request_lines::{
    Count, MOST_READ_BYTES, ScriptFault, Sink, Source, run_lines_together, run_script_together,
};
use std::alloc::Global;
use std::thread::Threads;

/// How many threads take part at most.
pub const MOST_THREADS: usize = 16;

/// Returns what reads lines by all threads but the calling one; `None` if that one is to read alone, or if an allocation fails.
fn ahead_of(alloc: Global, config: &Config, threads: usize) -> Option<ReadAhead>
    ensures { IfSome result (λ ahead. ahead.config ≡ config.now) }
{
    if threads < 2 {
        return None;
    }
    let shared = Shared::new(alloc, config.copy(alloc).ok()?).ok()?;
    ReadAhead::new(alloc, shared, threads.min(MOST_THREADS) - 1).ok()
}

/// Answers the lines of the reader in turn, until it ends, as `run_script_together` does. So many threads, at most 16, take part: the
/// calling one answers, and the others read the lines of a read call meanwhile. The calling thread reads them if they are few, if it is to be
/// one thread, and if no other can be made.
pub fn run_script_ahead<R: Source, W: Sink, S: Sequential, T: Threads + Sync>(
    rt: &T,
    alloc: Global,
    reader: &mut R,
    writer: &mut W,
    config: &Config,
    house: &mut S,
    threads: usize,
) -> Result<Count, ScriptFault>
    requires { S.config house.old ≡ config.now }
    ensures config { S.config house.new ≡ S.config house.old }
    // The writer took the answers to all lines that the reader returned, or to those before the error.
    ensures told { HasRunTogether (script_rule config.now) R.reading W.writing (S.events house.old) (S.events house.new) reader.old reader.new writer.old writer.new result }
    ensures end { OnOk result (R.reading.at_end reader.new) }
    ensures reader { MatchResult result (λ _. R.reading.failed reader.new ≡ R.reading.failed reader.old)
        (λ fault. is_read_fault fault ≡ false → R.reading.failed reader.new ≡ R.reading.failed reader.old) }
    ensures unfailed { OnOk result (W.writing.failed writer.new ≡ W.writing.failed writer.old) }
    ensures failed { IfErr result (λ fault. is_write_fault fault ≡ true → W.writing.failed writer.new ≡ true) }
    ensures kept { IfErr result (λ fault. is_write_fault fault ≡ false → W.writing.failed writer.new ≡ W.writing.failed writer.old) }
{
    let Some(mut ahead) = ahead_of(alloc, config, threads) else {
        return run_script_together(alloc, reader, writer, config, house);
    };
    let mut scripted = ScriptedAhead {
        rt,
        config,
        house,
        ahead: &mut ahead,
    };
    let told = run_lines_together(alloc, reader, writer, &mut scripted, MOST_READ_BYTES);
    ahead.finish(rt);
    told
}
