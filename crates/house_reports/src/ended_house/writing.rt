//! Writing a text, and the number of refused lines.

ghost use Rattle.std.specs.Prelude.{◌≡◌, true, IfErr, OnOk};
ghost use Rattle.house_reports.specs.ended_house.Writing.{IsCutOff};

use command_line::Fault;
use request_lines::{Sink, write_all};
use std::io::{self, Eprint};

/// Writes the whole text.
///
/// # Errors
///
/// `CannotWrite` if the writer fails; a beginning of the text is written.
#[tactic(auto, using(crate::proofs::ended_house::CutLemmas::cut_at))]
pub fn write_text<W: Sink>(writer: &mut W, text: &[u8]) -> Result<(), Fault<'static>>
    ensures ok { OnOk result (W.writing.takes writer.old text.now writer.new) }
    ensures fault { IfErr result (λ fault. (fault ≡ Fault.CannotWrite) × (W.writing.failed writer.new ≡ true)) }
    ensures cut { IfErr result (λ fault. IsCutOff W.writing text.now writer.old writer.new fault) }
{
    match write_all(writer, text) {
        Ok(()) => Ok(()),
        Err(_) => Err(Fault::CannotWrite),
    }
}

/// Reports the number of refused lines on standard error, if there are any.
pub fn tell_refused<R: Eprint>(rt: &R, refused: u128) -> io::Result<()> {
    if refused == 0 {
        return Ok(());
    }
    eprintln!(rt; "clear: lines refused: {refused}")
}
