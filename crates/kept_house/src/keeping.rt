//! A house whose lines are kept and answered.

ghost use Rattle.std.specs.Prelude.{◌≡◌, ◌≤◌, ◌^◌, [], ℕ, List, IsTrue, IfErr, IfOk, OnOk, Ok, Some};
ghost use Rattle.sqlite_disk.specs.Disk.{Only};
ghost use Rattle.kept_batches.specs.Text.{IsLine};
ghost use Rattle.kept_batches.specs.Verdict.{damage_in, kept_in};
ghost use Rattle.ocpi_types.specs.declared.config.Config.{Config as ConfigValue};
ghost use Rattle.ocpi_types.specs.ConfigText.{config_of};
ghost use Rattle.request_lines.specs.Lines.{AreLines};
ghost use Rattle.line_streams.specs.State.{empty_under};
ghost use Rattle.kept_answers.specs.Faults.{IsOtherCount};
ghost use Rattle.kept_answers.specs.Keeping.{HasOtherCount, IsAllKept, IsKept};
ghost use Rattle.kept_batches.specs.Reading.{OnlyReads};
ghost use Rattle.kept_house.specs.Beginning.{IsOtherLines};
ghost use Rattle.kept_house.specs.Keeping.{IsHouseAllKept, IsHouseKept, IsStreamAllKept, IsStreamKept};

use crate::beginning::{Begun, begin};
use crate::differences::first_difference;
use crate::fault::StoreFault;
use kept_answers::{Ended, Gate, KeepFault, Watch, keep};
use line_streams::LineStream;
use ocpi_json::name::Name;
use ocpi_types::{Config, ConfigFault};
use request_lines::{Sink, Source};
use sqlite_disk::Disk;
use std::alloc::Global;
use std::mem;

/// How a kept house ended, and its disk.
#[derive(Drop)]
pub struct Kept<D: Disk> {
    pub disk: D,
    pub result: Result<(), StoreFault>,
}

/// A gate that opens if the configuration in force is the given one, or none is given.
#[derive(Drop)]
struct SameConfig<'a> {
    given: Option<&'a Config>,
    /// The first member that differs.
    difference: Option<Name>,
}

impl<'a, A: LineStream> Gate<A> for SameConfig<'a> {
    fn opens(&mut self, stream: &A) -> bool {
        let Some(given) = self.given else {
            return true;
        };
        self.difference = first_difference(given, stream.config_in_force());
        self.difference.is_none()
    }
}

/// Returns why the stream ended: if the gate did not open, the member that differs.
fn fault_of(fault: KeepFault, difference: Option<Name>) -> StoreFault
    ensures other { IsOtherLines result → IsOtherCount fault }
    ensures damaged { (at : ℕ) → result ≡ StoreFault.Keep (KeepFault.Damaged at) → fault ≡ KeepFault.Damaged at }
{
    match (fault, difference) {
        (KeepFault::Stopped, Some(name)) => StoreFault::OtherConfig(name),
        (fault, _) => StoreFault::Keep(fault),
    }
}

/// Keeps and answers the lines of a store that has begun, as `kept_answers::keep` does, by a stream.
fn keep_stream<A: LineStream, D: Disk, R: Source, W: Sink, G: Gate<A>, V: Watch>(
    alloc: Global,
    disk: D,
    from: Option<u64>,
    reader: &mut R,
    writer: &mut W,
    stream: &mut A,
    gate: &mut G,
    watch: &mut V,
) -> Ended<D>
    requires usable { IsTrue (D.Disk.is_usable disk) }
    requires durable { Only (D.Disk.seen disk) (D.Disk.may_leave disk) }
    ensures told { (calls : ℕ) × (bytes : List ℕ) × (whole : List (List ℕ)) × (part : List ℕ) × (sent : List ℕ) × (calls ≤ 2 ^ 40)
        × R.reading.gives reader.old calls bytes reader.new × AreLines bytes whole part × W.writing.takes writer.old sent writer.new
        × (IsTrue (D.Disk.is_clean result.disk) → IsKept A.state_rule (A.state stream.old) (D.Disk.may_leave result.disk) (kept_in (D.Disk.seen disk)) whole from sent
        × OnOk result.result ((part ≡ []) × R.reading.at_end reader.new
        × IsAllKept A.state_rule (A.state stream.old) (D.Disk.seen result.disk) (kept_in (D.Disk.seen disk)) whole from sent (A.state stream.new))) }
    ensures clean { IsTrue (D.Disk.is_clean result.disk) → IsTrue (D.Disk.is_clean disk) }
    ensures untouched { IfErr result.result (λ fault. IsOtherCount fault → OnlyReads D.Disk disk result.disk) }
    ensures count { IfErr result.result (λ fault. IsOtherCount fault → IsTrue (D.Disk.is_clean result.disk) → HasOtherCount from (kept_in (D.Disk.seen disk))) }
    ensures damaged { IfErr result.result (λ fault. (at : ℕ) → fault ≡ KeepFault.Damaged at → OnlyReads D.Disk disk result.disk) }
    ensures damage { IfErr result.result (λ fault. (at : ℕ) → fault ≡ KeepFault.Damaged at → IsTrue (D.Disk.is_clean result.disk) → damage_in (D.Disk.seen disk) ≡ Some at) }
{
    keep(alloc, disk, from, reader, writer, stream, gate, watch)
}

/// Returns an empty stream under the configuration of this text.
///
/// # Errors
///
/// `Config` if the text does not read, and `Keep` if an allocation fails.
pub fn stream_under<A: LineStream>(alloc: Global, text: &[u8]) -> Result<A, StoreFault>
    ensures other { IfErr result (λ fault. IsOtherLines fault → ⊥) }
    ensures damaged { IfErr result (λ fault. (at : ℕ) → fault ≡ StoreFault.Keep (KeepFault.Damaged at) → ⊥) }
    ensures stream { IfOk result (λ stream. (config : ConfigValue) × (config_of text.now ≡ Ok config) × (A.state stream ≡ empty_under config)) }
{
    let config = Config::read(alloc, text)?;
    Ok(A::under(alloc, config)?)
}

/// Returns why a store is not opened whose record has a configuration with this fault: a record with one that does not read is none.
fn of_record(fault: StoreFault) -> StoreFault
    ensures other { IsOtherLines result → IsOtherLines fault }
    ensures damaged { (at : ℕ) → result ≡ StoreFault.Keep (KeepFault.Damaged at) → fault ≡ StoreFault.Keep (KeepFault.Damaged at) }
{
    match fault {
        StoreFault::Config(ConfigFault::NoMemory) => StoreFault::Keep(KeepFault::NoMemory),
        StoreFault::Config(_) => StoreFault::NoStore,
        fault => fault,
    }
}

/// Keeps and answers lines by an empty stream under the configuration of this text, if the given one, if any, is in force after the kept
/// lines.
fn keep_under<A: LineStream, D: Disk, R: Source, W: Sink, V: Watch>(
    alloc: Global,
    disk: D,
    text: &[u8],
    given: Option<&Config>,
    from: Option<u64>,
    reader: &mut R,
    writer: &mut W,
    watch: &mut V,
) -> Kept<D>
    requires usable { IsTrue (D.Disk.is_usable disk) }
    requires durable { Only (D.Disk.seen disk) (D.Disk.may_leave disk) }
    ensures told { (calls : ℕ) × (bytes : List ℕ) × (whole : List (List ℕ)) × (part : List ℕ) × (sent : List ℕ) × (calls ≤ 2 ^ 40)
        × R.reading.gives reader.old calls bytes reader.new × AreLines bytes whole part × W.writing.takes writer.old sent writer.new
        × (IsTrue (D.Disk.is_clean result.disk) → IsStreamKept A.state_rule text.now (D.Disk.may_leave result.disk) (kept_in (D.Disk.seen disk)) whole from sent
        × OnOk result.result ((part ≡ []) × R.reading.at_end reader.new
        × IsStreamAllKept A.state_rule text.now (D.Disk.seen result.disk) (kept_in (D.Disk.seen disk)) whole from sent)) }
    ensures clean { IsTrue (D.Disk.is_clean result.disk) → IsTrue (D.Disk.is_clean disk) }
    ensures untouched { IfErr result.result (λ fault. IsOtherLines fault → OnlyReads D.Disk disk result.disk) }
    ensures count { IfErr result.result (λ fault. IsOtherLines fault → IsTrue (D.Disk.is_clean result.disk) → HasOtherCount from (kept_in (D.Disk.seen disk))) }
    ensures damaged { IfErr result.result (λ fault. (at : ℕ) → fault ≡ StoreFault.Keep (KeepFault.Damaged at) → IsTrue (D.Disk.is_clean result.disk) → OnlyReads D.Disk disk result.disk × (damage_in (D.Disk.seen disk) ≡ Some at)) }
{
    let mut stream: A = match stream_under(alloc, text) {
        Ok(stream) => stream,
        Err(fault) => {
            return Kept {
                disk,
                result: Err(of_record(fault)),
            };
        }
    };
    let mut gate = SameConfig {
        given,
        difference: None,
    };
    let Ended { disk, result } = keep_stream(
        alloc,
        disk,
        from,
        reader,
        writer,
        &mut stream,
        &mut gate,
        watch,
    );
    // The process ends now, and the system takes its memory back at once.
    mem::forget(stream);
    match result {
        Ok(()) => Kept {
            disk,
            result: Ok(()),
        },
        Err(fault) => Kept {
            disk,
            result: Err(fault_of(fault, gate.difference)),
        },
    }
}

/// Keeps and answers lines in a store, by a house of which lines may change the configuration. An empty store begins with the given
/// configuration. Another store answers the lines that it keeps under its own, and goes on if the given configuration is then in force,
/// or in any case if that need not be. What is kept and sent is as `kept_answers::keep` has it, after the record that begins the store, and
/// so is what `watch` sees.
///
/// # Errors
///
/// `Config` if the given configuration does not read, `OtherConfig` if another one is in force after the kept lines, `LaterFormat`,
/// `NoStore`, and the errors of `kept_answers::keep`. What was sent begins the answers, and each content that a crash may leave has all
/// lines whose answers were begun.
pub fn keep_house<A: LineStream, D: Disk, R: Source, W: Sink, V: Watch>(
    alloc: Global,
    disk: D,
    program: &str,
    given: &[u8],
    must_be_in_force: bool,
    from: Option<u64>,
    reader: &mut R,
    writer: &mut W,
    watch: &mut V,
) -> Kept<D>
    requires usable { IsTrue (D.Disk.is_usable disk) }
    requires durable { Only (D.Disk.seen disk) (D.Disk.may_leave disk) }
    requires line { IsLine program.now }
    ensures told { (calls : ℕ) × (bytes : List ℕ) × (whole : List (List ℕ)) × (part : List ℕ) × (sent : List ℕ) × (calls ≤ 2 ^ 40)
        × R.reading.gives reader.old calls bytes reader.new × AreLines bytes whole part × W.writing.takes writer.old sent writer.new
        × (IsTrue (D.Disk.is_clean result.disk) → IsHouseKept A.state_rule program.now given.now (D.Disk.may_leave result.disk) (kept_in (D.Disk.seen disk)) whole from sent
        × OnOk result.result ((part ≡ []) × R.reading.at_end reader.new
        × IsHouseAllKept A.state_rule program.now given.now (D.Disk.seen result.disk) (kept_in (D.Disk.seen disk)) whole from sent)) }

    // A client that has more answers than the store has lines, or says nothing of them, finds the store as it was.
    ensures untouched { IfErr result.result (λ fault. IsOtherLines fault → IsTrue (D.Disk.is_clean result.disk) → OnlyReads D.Disk disk result.disk) }

    // A damaged store is as it was, and the fault names the byte where it is damaged.
    ensures damaged { IfErr result.result (λ fault. (at : ℕ) → fault ≡ StoreFault.Keep (KeepFault.Damaged at) → IsTrue (D.Disk.is_clean result.disk) → OnlyReads D.Disk disk result.disk × (damage_in (D.Disk.seen disk) ≡ Some at)) }
{
    let ours = match Config::read(alloc, given) {
        Ok(config) => config,
        Err(cause) => {
            return Kept {
                disk,
                result: Err(StoreFault::Config(cause)),
            };
        }
    };
    let in_force = if must_be_in_force { Some(&ours) } else { None };
    let Begun { disk, result } = begin(alloc, disk, program, given, from, watch);
    match result {
        Ok(text) => keep_under::<A, _, _, _, _>(
            alloc,
            disk,
            text.as_slice(),
            in_force,
            from,
            reader,
            writer,
            watch,
        ),
        Err(fault) => Kept {
            disk,
            result: Err(fault),
        },
    }
}
