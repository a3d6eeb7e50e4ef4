// What the marked text of a line is read as, against what the line is read as itself.
ghost use Rattle.marked_lines.specs.MarkedReading.{LinesAreReadAsMarked, LinesAreReadByLastKeys};

/// A law: for every line, what it is, with its marks, is what `serde_json` reads of its marked text
/// where every key in it is marked, and one is none where the other is.
pub fn lines_are_read_as_marked()
    ensures every_key { LinesAreReadAsMarked }
    ensures last_keys { LinesAreReadByLastKeys }
{}
