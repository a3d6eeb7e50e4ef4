//! Stores of format 1: a mark, a line and a newline for each line.

use std::fs::File;
use std::io;
use std::os::unix::fs::FileExt;

/// Whether a file begins as a store of format 1 does that has its first record: with the mark of a line, and an object.
pub fn is_first_format(file: &File) -> io::Result<bool> {
    let mut start = [0; 2];
    let count = file.read_at(&mut start, 0)?;
    Ok(count == 2 && start[0] == b'+' && start[1] == b'{')
}
