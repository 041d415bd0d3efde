//! Periods of a time file, numbered from 0, and those of rows and columns.
use crate::bases::Bases;
use crate::core_names::{column_place, line_of, objective, row_place};
use crate::lines::{Line, end_field, field, kind_of};

/// The period of this name; none where the time file states none so.
pub fn period_place(time: &[u8], name: &[u8]) -> Option<u64> {
    let mut before: u64 = 0;
    let mut is_here = false;
    for line in time.split(|byte| *byte == b'\n') {
        match kind_of(line) {
            Line::Header(b"ENDATA") => break,
            Line::Header(word) => is_here = word == b"PERIODS".as_slice(),
            Line::Data if is_here => {
                if end_field(line) == name {
                    return Some(before);
                }
                before = before.saturating_add(1);
            }
            Line::Data | Line::Skipped => {}
        }
    }
    None
}

/// The period of a column; none where the files don't tell it.
pub fn column_stage(bases: Bases<'_>, name: &[u8]) -> Option<u64> {
    match line_of(bases.time, b"COLUMNS", 0, name) {
        Some(line) => period_place(bases.time, end_field(line)),
        None => started(bases, 0, column_place(bases.core, name)?),
    }
}

/// The period of a constraint; none where the files don't tell it.
pub fn row_stage(bases: Bases<'_>, name: &[u8]) -> Option<u64> {
    match line_of(bases.time, b"ROWS", 0, name) {
        Some(line) => period_place(bases.time, end_field(line)),
        None => started(bases, 1, row_place(bases.core, name)?),
    }
}

/// The period of an entry: that of its row, of a cost that of its column.
pub fn entry_stage(bases: Bases<'_>, column: &[u8], row: &[u8]) -> Option<u64> {
    if objective(bases.core) == Some(row) {
        column_stage(bases, column)
    } else {
        row_stage(bases, row)
    }
}

/// The last period that starts at most at the column, or the row, before which so many stand. The names of columns stand at place 0 of the
/// lines of PERIODS, those of rows at place 1; the first period has all that comes before the second one.
fn started(bases: Bases<'_>, place: usize, at: u64) -> Option<u64> {
    let mut stage: Option<u64> = None;
    let mut is_here = false;
    for line in bases.time.split(|byte| *byte == b'\n') {
        match kind_of(line) {
            Line::Header(b"ENDATA") => break,
            Line::Header(word) => is_here = word == b"PERIODS".as_slice(),
            Line::Data if is_here => match stage {
                None => stage = Some(0),
                Some(last) => {
                    if start(bases, place, field(line, place)?)? > at {
                        break;
                    }
                    stage = Some(last.saturating_add(1));
                }
            },
            Line::Data | Line::Skipped => {}
        }
    }
    stage
}

/// How many columns, or rows, stand before the one with which a period starts.
fn start(bases: Bases<'_>, place: usize, name: &[u8]) -> Option<u64> {
    if place == 0 {
        column_place(bases.core, name)
    } else {
        row_place(bases.core, name)
    }
}
