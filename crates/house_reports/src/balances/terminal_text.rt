//! The text of lines as a table for a terminal.

use super::fields::{COLUMNS, FIRST_AMOUNT, Fields};
use std::alloc::{AllocError, Global};

const SPACES_BETWEEN: usize = 2;

fn widen(widths: &mut [usize; COLUMNS], line: &Fields) {
    let texts = line.texts();
    for column in 0..COLUMNS {
        widths[column] = widths[column].max(texts[column].len());
    }
}

fn widths_of(lines: &[Fields]) -> [usize; COLUMNS] {
    let mut widths = [0; COLUMNS];
    for line in lines {
        widen(&mut widths, line);
    }
    widths
}

fn push_spaces(text: &mut String, count: usize) -> Result<(), AllocError> {
    for _ in 0..count {
        text.push(' ')?;
    }
    Ok(())
}

// Aligns amounts to the right of their column, all else to the left.
fn push_field(
    text: &mut String,
    width: usize,
    field: &str,
    column: usize,
) -> Result<(), AllocError> {
    let padding = width.saturating_sub(field.len());
    if column >= FIRST_AMOUNT {
        push_spaces(text, padding)?;
        text.push_str(field)
    } else {
        text.push_str(field)?;
        push_spaces(text, padding)
    }
}

fn push_line(
    text: &mut String,
    widths: &[usize; COLUMNS],
    line: &Fields,
) -> Result<(), AllocError> {
    let texts = line.texts();
    for column in 0..COLUMNS {
        if column > 0 {
            push_spaces(text, SPACES_BETWEEN)?;
        }
        push_field(text, widths[column], texts[column], column)?;
    }
    text.push('\n')
}

/// Returns the lines, with their columns padded with spaces.
pub fn table_of(alloc: Global, lines: &[Fields]) -> Result<String, AllocError> {
    let widths = widths_of(lines);
    let mut text = String::new(alloc);
    for line in lines {
        push_line(&mut text, &widths, line)?;
    }
    Ok(text)
}
