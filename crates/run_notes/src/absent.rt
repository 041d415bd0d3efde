//! Entries and costs that a stoch file or an edit list sets, and that the core file doesn't have.
use crate::refusal::file_start;
use file_lines::{Line, field, field_count, kind_of};
use input_files::FileKind;
use smps_cli::Fetched;
use smps_words::Names;
use std::alloc::{AllocError, Global};
use std::fmt::Write;
use visible_text::push_line;

/// The first line that sets an entry which the core file doesn't have.
#[derive(Clone, Copy, Drop)]
struct Absent<'a> {
    /// The number of the line, counted from 1.
    line: u64,
    column: &'a [u8],
    row: &'a [u8],
    /// How many such lines there are.
    count: u64,
}

/// Appends which entries the stoch file and the edit list set that the core file doesn't have. The files have been read without a fault.
pub fn put_absent(
    alloc: Global,
    text: &mut String,
    fetched: &Fetched,
    core: &[u8],
) -> Result<(), AllocError> {
    let stoch = fetched.text(FileKind::Stoch).unwrap_or(&[]);
    let edits = fetched.text(FileKind::Edits).unwrap_or(&[]);
    if stoch.is_empty() && edits.is_empty() {
        return Ok(());
    }
    let known = entries_of(alloc, core)?;
    put_sentence(
        alloc,
        text,
        fetched,
        FileKind::Stoch,
        absent_of_stoch(alloc, stoch, &known)?,
    )?;
    put_sentence(
        alloc,
        text,
        fetched,
        FileKind::Edits,
        absent_of_edits(alloc, edits, &known)?,
    )
}

/// Appends a sentence for the first such line of a file.
fn put_sentence(
    alloc: Global,
    text: &mut String,
    fetched: &Fetched,
    file: FileKind,
    absent: Option<Absent<'_>>,
) -> Result<(), AllocError> {
    let Some(absent) = absent else {
        return Ok(());
    };
    let start = file_start(alloc, fetched, file)?;
    let line = absent.line;
    text.push_str(start.as_str())?;
    write!(text, ", line {line}: '")?;
    push_line(text, absent.column)?;
    text.push_str("' '")?;
    push_line(text, absent.row)?;
    text.push_str("' isn't stated in the core file, so that it is 0 wherever nothing sets it")?;
    let count = absent.count;
    if count > 1 {
        write!(text, "; there are {count} such lines")?;
    }
    text.push_str("\n")
}

/// Two words as one name.
fn key_of(alloc: Global, column: &[u8], row: &[u8]) -> Result<Vec<u8>, AllocError> {
    let mut key = Vec::from_slice(alloc, column)?;
    key.push(b' ')?;
    key.extend_from_slice(row)?;
    Ok(key)
}

/// Adds a name, where it isn't there.
fn add_once(names: &mut Names, name: &[u8]) -> Result<(), AllocError> {
    match names.place(name) {
        Some(_) => Ok(()),
        None => names.add(name),
    }
}

/// The columns of a core file, and its entries and costs, a column and a row with a blank between them.
fn entries_of(alloc: Global, core: &[u8]) -> Result<Names, AllocError> {
    let mut known = Names::empty(alloc);
    let mut is_here = false;
    for line in core.split(|byte| *byte == b'\n') {
        match kind_of(line) {
            Line::Header(b"ENDATA") => break,
            Line::Header(word) => is_here = word == b"COLUMNS".as_slice(),
            Line::Data if is_here => add_line(alloc, &mut known, line)?,
            Line::Data | Line::Skipped => {}
        }
    }
    Ok(known)
}

/// Adds the column of a line of COLUMNS, and its entries.
fn add_line(alloc: Global, known: &mut Names, line: &[u8]) -> Result<(), AllocError> {
    let Some(column) = field(line, 0) else {
        return Ok(());
    };
    add_once(known, column)?;
    for place in [1, 3] {
        if let Some(row) = field(line, place) {
            let key = key_of(alloc, column, row)?;
            add_once(known, &key)?;
        }
    }
    Ok(())
}

/// Whether a core file has a column, and not this entry of it.
fn is_absent(alloc: Global, known: &Names, column: &[u8], row: &[u8]) -> Result<bool, AllocError> {
    if known.place(column).is_none() {
        return Ok(false);
    }
    let key = key_of(alloc, column, row)?;
    Ok(known.place(&key).is_none())
}

/// With a further line, where it sets such an entry.
fn with_entry<'a>(
    alloc: Global,
    found: Option<Absent<'a>>,
    known: &Names,
    line: u64,
    column: Option<&'a [u8]>,
    row: Option<&'a [u8]>,
) -> Result<Option<Absent<'a>>, AllocError> {
    let (Some(column), Some(row)) = (column, row) else {
        return Ok(found);
    };
    if !is_absent(alloc, known, column, row)? {
        return Ok(found);
    }
    Ok(Some(match found {
        Some(first) => Absent {
            count: first.count.saturating_add(1),
            ..first
        },
        None => Absent {
            line,
            column,
            row,
            count: 1,
        },
    }))
}

/// Whether a line of a stoch file begins a case of a block, or a scenario.
fn begins_case(section: &[u8], line: &[u8]) -> bool {
    match (section, field(line, 0), field_count(line)) {
        (b"BLOCKS", Some(b"BL"), 4) | (b"SCENARIOS", Some(b"SC"), 5) => true,
        _ => false,
    }
}

/// The first such entry of a stoch file.
fn absent_of_stoch<'a>(
    alloc: Global,
    stoch: &'a [u8],
    known: &Names,
) -> Result<Option<Absent<'a>>, AllocError> {
    let mut found: Option<Absent<'a>> = None;
    let mut section: &[u8] = &[];
    for (before, line) in stoch.split(|byte| *byte == b'\n').enumerate() {
        match kind_of(line) {
            Line::Header(b"ENDATA") => break,
            Line::Header(word) => section = word,
            Line::Data if begins_case(section, line) => {}
            Line::Data => {
                let number = (before as u64).saturating_add(1);
                let column = field(line, 0);
                found = with_entry(alloc, found, known, number, column, field(line, 1))?;
                if section != b"INDEP".as_slice() {
                    found = with_entry(alloc, found, known, number, column, field(line, 3))?;
                }
            }
            Line::Skipped => {}
        }
    }
    Ok(found)
}

/// The first such entry of an edit list.
fn absent_of_edits<'a>(
    alloc: Global,
    edits: &'a [u8],
    known: &Names,
) -> Result<Option<Absent<'a>>, AllocError> {
    let mut found: Option<Absent<'a>> = None;
    for (before, line) in edits.split(|byte| *byte == b'\n').enumerate() {
        if field(line, 0) == Some(b"SET") {
            let number = (before as u64).saturating_add(1);
            found = with_entry(alloc, found, known, number, field(line, 2), field(line, 3))?;
        }
    }
    Ok(found)
}
