//! Names of a core file: where they stand, and which stands where.
use crate::lines::{Line, field, kind_of};

/// Whether a data line of a section has this name at this place.
pub fn is_stated(text: &[u8], section: &[u8], place: usize, name: &[u8]) -> bool {
    line_of(text, section, place, name).is_some()
}

/// The first data line of a section that has this name at this place.
pub fn line_of<'a>(text: &'a [u8], section: &[u8], place: usize, name: &[u8]) -> Option<&'a [u8]> {
    let mut is_here = false;
    for line in text.split(|byte| *byte == b'\n') {
        match kind_of(line) {
            Line::Header(b"ENDATA") => break,
            Line::Header(word) => is_here = word == section,
            Line::Data if is_here && field(line, place) == Some(name) => return Some(line),
            Line::Data | Line::Skipped => {}
        }
    }
    None
}

/// The first N row that a core file states: the objective.
pub fn objective(text: &[u8]) -> Option<&[u8]> {
    for line in text.split(|byte| *byte == b'\n') {
        match kind_of(line) {
            Line::Header(b"COLUMNS") => break,
            Line::Data if field(line, 0) == Some(b"N") => return field(line, 1),
            Line::Header(_) | Line::Data | Line::Skipped => {}
        }
    }
    None
}

/// The kind of a row that a core file states.
pub fn row_kind<'a>(core: &'a [u8], name: &[u8]) -> Option<&'a [u8]> {
    field(line_of(core, b"ROWS", 1, name)?, 0)
}

/// Whether a core file states this name as that of an N row.
pub fn is_free(core: &[u8], name: &[u8]) -> bool {
    row_kind(core, name) == Some(b"N")
}

/// The constraint with this number, counted from 0 without N rows.
pub fn row_named(core: &[u8], number: u64) -> Option<&[u8]> {
    let mut before: u64 = 0;
    let mut is_here = false;
    for line in core.split(|byte| *byte == b'\n') {
        match kind_of(line) {
            Line::Header(b"COLUMNS") => break,
            Line::Header(word) => is_here = word == b"ROWS".as_slice(),
            Line::Data if is_here && field(line, 0) != Some(b"N") => {
                if before == number {
                    return field(line, 1);
                }
                before = before.saturating_add(1);
            }
            Line::Data | Line::Skipped => {}
        }
    }
    None
}

/// The column with this number, counted from 0.
pub fn column_named(core: &[u8], number: u64) -> Option<&[u8]> {
    let mut before: u64 = 0;
    let mut last: &[u8] = &[];
    let mut is_here = false;
    for line in core.split(|byte| *byte == b'\n') {
        match kind_of(line) {
            Line::Header(b"ENDATA") => break,
            Line::Header(word) => is_here = word == b"COLUMNS".as_slice(),
            Line::Data if is_here => {
                let name = field(line, 0)?;
                if name != last {
                    if before == number {
                        return Some(name);
                    }
                    before = before.saturating_add(1);
                    last = name;
                }
            }
            Line::Data | Line::Skipped => {}
        }
    }
    None
}

/// How many constraints a core file states before this one; none where it isn't one.
pub fn row_place(core: &[u8], name: &[u8]) -> Option<u64> {
    let mut before: u64 = 0;
    let mut is_here = false;
    for line in core.split(|byte| *byte == b'\n') {
        match kind_of(line) {
            Line::Header(b"COLUMNS") => break,
            Line::Header(word) => is_here = word == b"ROWS".as_slice(),
            Line::Data if is_here && field(line, 0) != Some(b"N") => {
                if field(line, 1) == Some(name) {
                    return Some(before);
                }
                before = before.saturating_add(1);
            }
            Line::Data | Line::Skipped => {}
        }
    }
    None
}

/// How many columns a core file states before this one; none where it isn't one.
pub fn column_place(core: &[u8], name: &[u8]) -> Option<u64> {
    let mut before: u64 = 0;
    let mut last: &[u8] = &[];
    let mut is_here = false;
    for line in core.split(|byte| *byte == b'\n') {
        match kind_of(line) {
            Line::Header(b"ENDATA") => break,
            Line::Header(word) => is_here = word == b"COLUMNS".as_slice(),
            Line::Data if is_here => {
                let here = field(line, 0)?;
                if here == name {
                    return Some(before);
                }
                if here != last {
                    before = before.saturating_add(1);
                    last = here;
                }
            }
            Line::Data | Line::Skipped => {}
        }
    }
    None
}
