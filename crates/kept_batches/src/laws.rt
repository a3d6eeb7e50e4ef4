//! What follows from the definitions.

ghost use Rattle.kept_batches.specs.Verdict.{VerdictIsRight, PlaceIsRight, WindowsSuffice};
ghost use Rattle.kept_batches.specs.Laws.{HeadsCollide, ReceiptsHold, KeepsOne, OneByteTells, AppendsSurvive, CutsSurvive, BeginningsSurvive, MarksSurvive};

/// Different lines with one head show two inputs with one digest.
pub fn heads_collide()
    ensures { HeadsCollide }
{}

/// Stores with one head after some lines have the same lines so far, or show such inputs.
pub fn receipts_hold()
    ensures { ReceiptsHold }
{}

/// No file keeps two lists of lines.
pub fn keeps_one()
    ensures { KeepsOne }
{}

/// What a crash leaves of an append keeps the lines from before, or these and the batch.
pub fn appends_survive()
    ensures { AppendsSurvive }
{}

/// What a crash leaves of a cut keeps the same lines.
pub fn cuts_survive()
    ensures { CutsSurvive }
{}

/// What a crash leaves of a beginning keeps no line.
pub fn beginnings_survive()
    ensures { BeginningsSurvive }
{}

/// Half a mark that is not shut keeps the last batch, whatever the other half is.
pub fn marks_survive()
    ensures { MarksSurvive }
{}

/// A changed byte is found, or changes no line, or shows two inputs with one digest.
pub fn one_byte_tells()
    ensures { OneByteTells }
{}

/// The verdict on a file accepts those that keep lines, and their lines.
pub fn verdict_is_right()
    ensures { VerdictIsRight }
{}

/// Where it finds damage, the batches before are whole.
pub fn place_is_right()
    ensures { PlaceIsRight }
{}

/// A window of a batch's most bytes is enough to find a batch.
pub fn windows_suffice()
    ensures { WindowsSuffice }
{}
