//! What a core file may mean otherwise than its writer thinks.
use crate::twofold::{put_double_bound, put_idle_objective};
use crate::unused::{Section, Set, used_set};
use file_lines::{Line, end_field, field, kind_of};
use frac128::parse;
use std::alloc::{AllocError, Global};
use std::fmt::Write;
use visible_text::push_line;

const COMMON_NONE: &[u8] = b"1E20";

/// A line, and how many there are of its kind.
#[derive(Clone, Copy, Drop)]
struct Seen {
    /// The number of the first line, counted from 1.
    line: u64,
    count: u64,
}

/// Appends a sentence for each thing in a core file that is often not meant so, behind this beginning: a column with the name of a set of
/// right-hand sides, ranges or bounds, no right-hand side at all, bounds that others take for none or that stand twice, an objective
/// without costs beside an N row that has entries. The file has been read without a fault.
pub fn put_doubts(
    alloc: Global,
    text: &mut String,
    start: &str,
    core: &[u8],
) -> Result<(), AllocError> {
    put_idle_objective(alloc, text, start, core)?;
    for section in [Section::Rhs, Section::Ranges] {
        put_lost_header(text, start, core, section)?;
    }
    put_bound_set(text, start, core)?;
    put_no_right_side(text, start, core)?;
    put_double_bound(alloc, text, start, core)?;
    put_great_bounds(text, start, core)
}

/// Appends that a column has the name of the set of bounds.
fn put_bound_set(text: &mut String, start: &str, core: &[u8]) -> Result<(), AllocError> {
    let Some(Set { name: Some(name) }) = used_set(core, Section::Bounds) else {
        return Ok(());
    };
    let Some((line, column)) = column_named_as(core, name, None) else {
        return Ok(());
    };
    text.push_str(start)?;
    write!(text, ", line {line}: '")?;
    push_line(text, column)?;
    text.push_str(
        "' is a column there, and also the name of the set of BOUNDS; on a line of BOUNDS a field may be missing\n",
    )
}

/// Appends that a column has the name of a set of the section, or of the section itself: a header may be missing.
fn put_lost_header(
    text: &mut String,
    start: &str,
    core: &[u8],
    section: Section,
) -> Result<(), AllocError> {
    let word = section.word();
    let name = match used_set(core, section) {
        Some(set) => set.name,
        None => None,
    };
    let Some((line, column)) = column_named_as(core, word.as_bytes(), name) else {
        return Ok(());
    };
    text.push_str(start)?;
    write!(text, ", line {line}: '")?;
    push_line(text, column)?;
    writeln!(
        text,
        "' is a column there, since the line stands in COLUMNS; where a line of {word} is meant, its header is missing"
    )
}

/// The first line of COLUMNS with a column of one of these names.
fn column_named_as<'a>(
    core: &'a [u8],
    word: &[u8],
    name: Option<&[u8]>,
) -> Option<(u64, &'a [u8])> {
    let mut is_here = false;
    for (before, line) in core.split(|byte| *byte == b'\n').enumerate() {
        match kind_of(line) {
            Line::Header(b"ENDATA") => break,
            Line::Header(header) => is_here = header == b"COLUMNS".as_slice(),
            Line::Data if is_here => {
                let column = field(line, 0)?;
                if column == word || Some(column) == name {
                    return Some(((before as u64).saturating_add(1), column));
                }
            }
            Line::Data | Line::Skipped => {}
        }
    }
    None
}

/// Appends that no right-hand side is stated, where a row that is at most or equal to it has none.
fn put_no_right_side(text: &mut String, start: &str, core: &[u8]) -> Result<(), AllocError> {
    if used_set(core, Section::Rhs).is_some() || !has_bounding_row(core) {
        return Ok(());
    }
    text.push_str(start)?;
    text.push_str(": no right-hand side is stated, so that of each constraint is 0\n")
}

/// Whether a core file has an L or an E row.
fn has_bounding_row(core: &[u8]) -> bool {
    for line in core.split(|byte| *byte == b'\n') {
        match kind_of(line) {
            Line::Header(b"COLUMNS") => break,
            Line::Data if matches!(field(line, 0), Some(b"L" | b"E")) => return true,
            Line::Header(_) | Line::Data | Line::Skipped => {}
        }
    }
    false
}

/// Appends that bounds are as great as those that others take for none.
fn put_great_bounds(text: &mut String, start: &str, core: &[u8]) -> Result<(), AllocError> {
    let Some(seen) = great_bounds(core) else {
        return Ok(());
    };
    text.push_str(start)?;
    let line = seen.line;
    let count = seen.count;
    write!(text, ", line {line}: ")?;
    if count == 1 {
        text.push_str("a bound of 1E20 or more")?;
    } else {
        write!(
            text,
            "the first of {count} bounds of 1E20 or more, each of which"
        )?;
    }
    text.push_str(" is a number like others; no bound is stated by FR, MI or PL, or by 1E30\n")
}

/// The bounds of at least 1E20, or at most -1E20, that aren't taken for none.
fn great_bounds(core: &[u8]) -> Option<Seen> {
    let mut found: Option<Seen> = None;
    let mut is_here = false;
    for (before, line) in core.split(|byte| *byte == b'\n').enumerate() {
        match kind_of(line) {
            Line::Header(b"ENDATA") => break,
            Line::Header(header) => is_here = header == b"BOUNDS".as_slice(),
            Line::Data if is_here && is_great(line) => {
                found = Some(match found {
                    Some(seen) => Seen {
                        count: seen.count.saturating_add(1),
                        ..seen
                    },
                    None => Seen {
                        line: (before as u64).saturating_add(1),
                        count: 1,
                    },
                });
            }
            Line::Data | Line::Skipped => {}
        }
    }
    found
}

/// Whether a line of BOUNDS states an upper bound from 1E20 on that is below 1E30, or a lower one likewise below 0.
fn is_great(line: &[u8]) -> bool {
    match field(line, 0) {
        Some(b"UP") => is_between(end_field(line)),
        Some(b"LO") => match end_field(line) {
            [b'-', number @ ..] => is_between(number),
            _ => false,
        },
        _ => false,
    }
}

/// Whether a number is at least 1E20 and below 1E30.
fn is_between(word: &[u8]) -> bool {
    match (parse(word), parse(COMMON_NONE), parse(b"1E30")) {
        (Ok(number), Ok(least), Ok(none)) => least <= number && number < none,
        _ => false,
    }
}
