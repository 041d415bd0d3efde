//! Which period of a stoch file's line doesn't fit, and why.
use file_lines::{
    Bases, Line, RefusedLine, column_place, column_stage, entry_stage, field, kind_of,
    period_place, row_stage,
};

const LATE_COLUMN: &str = "that column is decided in a later period than that of the row";

const UNKNOWN: &str =
    "the time file has no period of that name; the period stands before the probability";

const FIRST: &str = "that is the first period, in which nothing is random";

const FIRST_ENTRY: &str = "that entry is of the first period, in which nothing is random";

const ABOVE: &str =
    "that period is later than that of the entry, by which its value has to be known";

const OTHER: &str = "an earlier case of the same block or entry has another period";

const BEFORE_BLOCK: &str = "that entry is of an earlier period than its block";

const BEFORE_BRANCH: &str =
    "that entry is of an earlier period than the one in which its scenario branches";

const ANY: &str =
    "a period there isn't known, is the first, is later than that of the entry, or another one than in the case before; \
or the column is of a later period than the row";

/// Why a line of a stoch file has a period that doesn't fit.
pub fn stage_fault(text: &[u8], bases: Bases<'_>, at: RefusedLine<'_>) -> &'static str {
    if at.begins_case() {
        return named_fault(bases, at, 2).unwrap_or(OTHER);
    }
    entry_fault(text, bases, at).unwrap_or(ANY)
}

/// Why the period that the field at this place names doesn't fit in itself.
fn named_fault(bases: Bases<'_>, at: RefusedLine<'_>, place: usize) -> Option<&'static str> {
    match period_place(bases.time, field(at.line, place)?) {
        None => Some(UNKNOWN),
        Some(0) => Some(FIRST),
        Some(_) => None,
    }
}

/// Why the period of a line with an entry doesn't fit.
fn entry_fault(text: &[u8], bases: Bases<'_>, at: RefusedLine<'_>) -> Option<&'static str> {
    let column = field(at.line, 0)?;
    let row = field(at.line, 1)?;
    if is_late(bases, column, row) || is_second_late(bases, at, column) {
        return Some(LATE_COLUMN);
    }
    match (at.section, at.count) {
        (b"INDEP", 5) => match named_fault(bases, at, 3) {
            Some(fault) => Some(fault),
            None => indep_fault(text, bases, at, column, row),
        },
        (b"INDEP", _) => match entry_stage(bases, column, row)? {
            0 => Some(FIRST_ENTRY),
            _ => Some(OTHER),
        },
        (b"BLOCKS", _) => Some(BEFORE_BLOCK),
        _ => Some(BEFORE_BRANCH),
    }
}

/// Whether a column of the core is decided after the period of a constraint.
fn is_late(bases: Bases<'_>, column: &[u8], row: &[u8]) -> bool {
    match (
        column_place(bases.core, column),
        column_stage(bases, column),
        row_stage(bases, row),
    ) {
        (Some(_), Some(column), Some(row)) => row < column,
        _ => false,
    }
}

/// The same of the second pair of a line of a block or a scenario.
fn is_second_late(bases: Bases<'_>, at: RefusedLine<'_>, column: &[u8]) -> bool {
    match field(at.line, 3) {
        Some(row) if at.section != b"INDEP".as_slice() => is_late(bases, column, row),
        _ => false,
    }
}

/// Why a period of INDEP that there is doesn't go with its entry.
fn indep_fault(
    text: &[u8],
    bases: Bases<'_>,
    at: RefusedLine<'_>,
    column: &[u8],
    row: &[u8],
) -> Option<&'static str> {
    let named = period_place(bases.time, field(at.line, 3)?)?;
    if entry_stage(bases, column, row)? < named {
        Some(ABOVE)
    } else if has_line(text, column, row) {
        Some(OTHER)
    } else {
        None
    }
}

/// Whether two lines of a stoch file or more name this entry.
fn has_line(text: &[u8], column: &[u8], row: &[u8]) -> bool {
    let mut count: u64 = 0;
    for line in text.split(|byte| *byte == b'\n') {
        match kind_of(line) {
            Line::Header(b"ENDATA") => break,
            Line::Data if field(line, 0) == Some(column) && field(line, 1) == Some(row) => {
                count = count.saturating_add(1);
            }
            Line::Header(_) | Line::Data | Line::Skipped => {}
        }
    }
    count > 1
}
