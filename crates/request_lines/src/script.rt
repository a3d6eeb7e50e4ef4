ghost use Rattle.std.specs.Prelude.{◌≡◌, true, false, OnOk, IfErr, MatchResult};
ghost use Rattle.request_lines.specs.Answering.{HasRun, is_read_fault, is_write_fault};
ghost use Rattle.request_lines.specs.Script.{script_rule};
ghost use Rattle.request_lines.specs.Together.{HasRunTogether};

use super::answering::{Answerer, run_lines};
use super::faults::{Count, ScriptFault};
use super::line_room::LineRoom;
use super::one_line::{Once, Respond};
use super::streams::{READ_BYTES, Sink, Source};
use super::together::run_lines_together;
use ocpi_types::Config;
use plain_house::Sequential;
use std::alloc::{AllocError, Global};

/// A house that answers lines, the way in which it does, and the room in which each is read.
#[derive(Drop)]
pub struct Scripted<'c, 'h, 'r, 'w, S: Sequential, A: Respond> {
    pub config: &'c Config,
    pub house: &'h mut S,
    pub room: &'r mut LineRoom,
    pub way: &'w A,
    ghost same: { S.config house.now ≡ config.now },
}

impl<S: Sequential, A: Respond> Answerer for Scripted<'_, '_, '_, '_, S, A> {
    ghost use Rattle.std.specs.Prelude.{◌≡◌, ◌⊎◌, refl};
    ghost use Rattle.std.proofs.Common.{◌∙◌};
    ghost use Rattle.request_lines.specs.Script.{after};
    ghost use Rattle.request_lines.specs.Inner.InTurn.{AnswersInTurn, in_turn_more};

    ghost rule = { record {
      answers = λ a lines text b. (b.house.ghost_name ≡ a.house.ghost_name)
          × AnswersInTurn a.config.now b.config.now (S.events a.house.now) lines text (S.events b.house.now);
      gives_up = λ a line b. (b.house.ghost_name ≡ a.house.ghost_name) × (b.config.now ≡ a.config.now)
          × ((S.events b.house.now ≡ S.events a.house.now) ⊎ (S.events b.house.now ≡ after a.config.now (S.events a.house.now) line));
    } };

    ghost answers_none = { λ a. (refl, (refl, refl, refl)) };

    ghost answers_more = { λ a b c ls ms t u h k. (k.0 ∙ h.0, in_turn_more a.config.now b.config.now c.config.now (S.events a.house.now) (S.events b.house.now) (S.events c.house.now) ls ms t u h.1 k.1) };

    fn answer(&mut self, alloc: Global, line: &[u8]) -> Result<Vec<u8>, AllocError> {
        self.way
            .respond(alloc, self.room, self.config, self.house, line)
    }
}

/// Answers the lines of the reader in turn, until it ends, each in this way.
pub fn run_script_by<R: Source, W: Sink, S: Sequential, A: Respond>(
    alloc: Global,
    reader: &mut R,
    writer: &mut W,
    config: &Config,
    house: &mut S,
    way: &A,
) -> Result<Count, ScriptFault>
    requires { S.config house.old ≡ config.now }
    ensures config { S.config house.new ≡ S.config house.old }
    // The writer took the answers to all lines that the reader returned, or to those before the error.
    ensures told { HasRun (script_rule config.now) R.reading W.writing (S.events house.old) (S.events house.new) reader.old reader.new writer.old writer.new result }
    ensures end { OnOk result (R.reading.at_end reader.new) }
    ensures reader { MatchResult result (λ _. R.reading.failed reader.new ≡ R.reading.failed reader.old)
        (λ fault. is_read_fault fault ≡ false → R.reading.failed reader.new ≡ R.reading.failed reader.old) }
    ensures unfailed { OnOk result (W.writing.failed writer.new ≡ W.writing.failed writer.old) }
    ensures failed { IfErr result (λ fault. is_write_fault fault ≡ true → W.writing.failed writer.new ≡ true) }
    ensures kept { IfErr result (λ fault. is_write_fault fault ≡ false → W.writing.failed writer.new ≡ W.writing.failed writer.old) }
{
    let mut room = LineRoom::new(alloc);
    let mut scripted = Scripted {
        config,
        house,
        room: &mut room,
        way,
    };
    run_lines(alloc, reader, writer, &mut scripted)
}

/// Answers the lines of the reader in turn, until it ends.
pub fn run_script<R: Source, W: Sink, S: Sequential>(
    alloc: Global,
    reader: &mut R,
    writer: &mut W,
    config: &Config,
    house: &mut S,
) -> Result<Count, ScriptFault>
    requires { S.config house.old ≡ config.now }
    ensures config { S.config house.new ≡ S.config house.old }
    // The writer took the answers to all lines that the reader returned, or to those before the error.
    ensures told { HasRun (script_rule config.now) R.reading W.writing (S.events house.old) (S.events house.new) reader.old reader.new writer.old writer.new result }
    ensures end { OnOk result (R.reading.at_end reader.new) }
    ensures reader { MatchResult result (λ _. R.reading.failed reader.new ≡ R.reading.failed reader.old)
        (λ fault. is_read_fault fault ≡ false → R.reading.failed reader.new ≡ R.reading.failed reader.old) }
    ensures unfailed { OnOk result (W.writing.failed writer.new ≡ W.writing.failed writer.old) }
    ensures failed { IfErr result (λ fault. is_write_fault fault ≡ true → W.writing.failed writer.new ≡ true) }
    ensures kept { IfErr result (λ fault. is_write_fault fault ≡ false → W.writing.failed writer.new ≡ W.writing.failed writer.old) }
{
    run_script_by(alloc, reader, writer, config, house, &Once)
}

/// Answers the lines of the reader in turn, until it ends, and writes the answers to the lines of a read call together, before the next
/// read call. If the writer fails, the house may have done lines whose answers are not written, all of them lines of that read call.
pub fn run_script_together<R: Source, W: Sink, S: Sequential>(
    alloc: Global,
    reader: &mut R,
    writer: &mut W,
    config: &Config,
    house: &mut S,
) -> Result<Count, ScriptFault>
    requires { S.config house.old ≡ config.now }
    ensures config { S.config house.new ≡ S.config house.old }
    // The writer took the answers to all lines that the reader returned, or to those before the error.
    ensures told { HasRunTogether (script_rule config.now) R.reading W.writing (S.events house.old) (S.events house.new) reader.old reader.new writer.old writer.new result }
    ensures end { OnOk result (R.reading.at_end reader.new) }
    ensures reader { MatchResult result (λ _. R.reading.failed reader.new ≡ R.reading.failed reader.old)
        (λ fault. is_read_fault fault ≡ false → R.reading.failed reader.new ≡ R.reading.failed reader.old) }
    ensures unfailed { OnOk result (W.writing.failed writer.new ≡ W.writing.failed writer.old) }
    ensures failed { IfErr result (λ fault. is_write_fault fault ≡ true → W.writing.failed writer.new ≡ true) }
    ensures kept { IfErr result (λ fault. is_write_fault fault ≡ false → W.writing.failed writer.new ≡ W.writing.failed writer.old) }
{
    let mut room = LineRoom::new(alloc);
    let mut scripted = Scripted {
        config,
        house,
        room: &mut room,
        way: &Once,
    };
    run_lines_together(alloc, reader, writer, &mut scripted, READ_BYTES)
}
