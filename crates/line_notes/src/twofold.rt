//! What a core file states twice: a bound of a column, of which the last counts, and N rows, of which the first is the objective.
use crate::unused::{Section, Set, is_same, set_of, used_set};
use file_lines::{Line, field, field_count, kind_of};
use smps_words::Names;
use std::alloc::{AllocError, Global};
use std::fmt::Write;
use visible_text::push_line;

/// A name, and the number of the line where it stands, counted from 1.
#[derive(Clone, Copy, Drop)]
struct Stated<'a> {
    line: u64,
    name: &'a [u8],
}

/// Appends that a column has two upper bounds, or two lower ones, behind this beginning; the first of several.
pub fn put_double_bound(
    alloc: Global,
    text: &mut String,
    start: &str,
    core: &[u8],
) -> Result<(), AllocError> {
    let Some(double) = double_bound(alloc, core)? else {
        return Ok(());
    };
    put_stated(text, start, double)?;
    text.push_str(" has a bound of that kind on an earlier line, and the last one counts\n")
}

/// Appends where a name stands, and the name.
fn put_stated(text: &mut String, start: &str, stated: Stated<'_>) -> Result<(), AllocError> {
    let line = stated.line;
    text.push_str(start)?;
    write!(text, ", line {line}: '")?;
    push_line(text, stated.name)?;
    text.push_str("'")
}

/// The first column that has a second UP or a second LO in the set that is used.
fn double_bound<'a>(alloc: Global, core: &'a [u8]) -> Result<Option<Stated<'a>>, AllocError> {
    let Some(used) = used_set(core, Section::Bounds) else {
        return Ok(None);
    };
    let mut keys = Names::empty(alloc);
    let mut is_here = false;
    for (before, line) in core.split(|byte| *byte == b'\n').enumerate() {
        match kind_of(line) {
            Line::Header(b"ENDATA") => break,
            Line::Header(word) => is_here = word == b"BOUNDS".as_slice(),
            Line::Data if is_here => {
                if let Some(name) = bounded_column(used, line) {
                    if !add_key(alloc, &mut keys, field(line, 0).unwrap_or(&[]), name)? {
                        let line = (before as u64).saturating_add(1);
                        return Ok(Some(Stated { line, name }));
                    }
                }
            }
            Line::Data | Line::Skipped => {}
        }
    }
    Ok(None)
}

/// The column of a line UP or LO of this set.
fn bounded_column<'a>(used: Set<'_>, line: &'a [u8]) -> Option<&'a [u8]> {
    match field(line, 0) {
        Some(b"UP" | b"LO") if is_same(used, set_of(line, Section::Bounds)) => {
            field(line, field_count(line).checked_sub(2)?)
        }
        _ => None,
    }
}

/// Adds two words as one name; whether it wasn't there.
fn add_key(
    alloc: Global,
    keys: &mut Names,
    first: &[u8],
    second: &[u8],
) -> Result<bool, AllocError> {
    let mut key = Vec::from_slice(alloc, first)?;
    key.push(b' ')?;
    key.extend_from_slice(second)?;
    add_new(keys, &key)
}

/// Adds a name; whether it wasn't there.
fn add_new(names: &mut Names, name: &[u8]) -> Result<bool, AllocError> {
    match names.place(name) {
        Some(_) => Ok(false),
        None => {
            names.add(name)?;
            Ok(true)
        }
    }
}

/// Appends that a later N row has entries and the first one, the objective, has none, behind this beginning.
pub fn put_idle_objective(
    alloc: Global,
    text: &mut String,
    start: &str,
    core: &[u8],
) -> Result<(), AllocError> {
    let rows = free_rows(alloc, core)?;
    if rows.len() < 2 {
        return Ok(());
    }
    let Some(later) = later_entry(core, &rows) else {
        return Ok(());
    };
    put_stated(text, start, later)?;
    text.push_str(
        " is a later N row, whose entries are skipped; the objective is the first one, '",
    )?;
    push_line(text, rows.name(0))?;
    text.push_str("', which has no costs\n")
}

/// The N rows of a core file.
fn free_rows(alloc: Global, core: &[u8]) -> Result<Names, AllocError> {
    let mut rows = Names::empty(alloc);
    for line in core.split(|byte| *byte == b'\n') {
        match kind_of(line) {
            Line::Header(b"COLUMNS") => break,
            Line::Data if field(line, 0) == Some(b"N") => {
                add_new(&mut rows, field(line, 1).unwrap_or(&[]))?;
            }
            Line::Header(_) | Line::Data | Line::Skipped => {}
        }
    }
    Ok(rows)
}

/// The first entry of an N row in COLUMNS; none where the first N row has one.
fn later_entry<'a>(core: &'a [u8], rows: &Names) -> Option<Stated<'a>> {
    let mut found: Option<Stated<'a>> = None;
    let mut is_here = false;
    for (before, line) in core.split(|byte| *byte == b'\n').enumerate() {
        match kind_of(line) {
            Line::Header(b"ENDATA") => break,
            Line::Header(word) => is_here = word == b"COLUMNS".as_slice(),
            Line::Data if is_here => {
                for name in [field(line, 1).unwrap_or(&[]), field(line, 3).unwrap_or(&[])] {
                    match rows.place(name) {
                        Some(0) => return None,
                        Some(_) if found.is_none() => {
                            let line = (before as u64).saturating_add(1);
                            found = Some(Stated { line, name });
                        }
                        _ => {}
                    }
                }
            }
            Line::Data | Line::Skipped => {}
        }
    }
    found
}
