//! Why a file is refused, with the fields at fault and the line.
use crate::causes::sentence;
use crate::fault_field::{fault_word, put_count, put_fault};
use crate::foreign::remedy;
use crate::keywords::is_small_word;
use crate::report_fault::report_fault;
use crate::stage_fault::stage_fault;
use crate::sums::put_sum;
use core_defs::Cause;
use file_lines::{Bases, RefusedLine, column_named, numbered_line, row_named};
use input_files::FileKind;
use std::alloc::{AllocError, Global};
use std::fmt::Write;
use visible_text::push_line;

/// Appends the fields at fault where the line tells them, why a file of these bytes is refused at the line with this number, and the line
/// where it has one.
pub fn put_cause(
    alloc: Global,
    text: &mut String,
    file: FileKind,
    bytes: &[u8],
    bases: Bases<'_>,
    number: u32,
    cause: &Cause,
) -> Result<(), AllocError> {
    let at = RefusedLine::of(bytes, number);
    match at {
        Some(at) => put_line_cause(text, file, bytes, bases, at, cause)?,
        None => {
            put_reason(text, reason_of(file, bytes, number, *cause))?;
        }
    }
    put_count(text, *cause, bytes, number)?;
    put_values(alloc, text, bytes, bases, *cause)?;
    if let Some(at) = at {
        put_remedy(text, remedy(file, *cause, bytes, bases, at))?;
    }
    text.push_str("\n")?;
    if let Some(line) = numbered_line(bytes, number) {
        write!(text, "  {number} | ")?;
        push_line(text, line)?;
        text.push_str("\n")?;
    }
    Ok(())
}

/// Appends the fields of a line that are at fault, and why.
fn put_line_cause(
    text: &mut String,
    file: FileKind,
    bytes: &[u8],
    bases: Bases<'_>,
    at: RefusedLine<'_>,
    cause: &Cause,
) -> Result<(), AllocError> {
    put_fault(text, file, *cause, bytes, bases, at)?;
    put_reason(text, line_reason(file, bytes, bases, at, *cause))?;
    put_hint(text, *cause, fault_word(file, *cause, bytes, bases, at))
}

/// Appends what to write instead, where that is known.
fn put_remedy(text: &mut String, remedy: Option<&'static str>) -> Result<(), AllocError> {
    match remedy {
        Some(words) => {
            text.push_str("; ")?;
            text.push_str(words)
        }
        None => Ok(()),
    }
}

/// Appends why a file is refused.
fn put_reason(text: &mut String, reason: &'static str) -> Result<(), AllocError> {
    text.push_str(": ")?;
    text.push_str(reason)
}

/// Appends that words are written in capitals, where a field at fault would be one so.
fn put_hint(text: &mut String, cause: Cause, word: Option<&[u8]>) -> Result<(), AllocError> {
    let Some(word) = word else {
        return Ok(());
    };
    if is_small_word(cause, word) {
        text.push_str("; the words of the files are written in capitals")
    } else {
        Ok(())
    }
}

/// Why a file of these bytes is refused at a line.
fn line_reason(
    file: FileKind,
    bytes: &[u8],
    bases: Bases<'_>,
    at: RefusedLine<'_>,
    cause: Cause,
) -> &'static str {
    match cause {
        Cause::EntryStage => stage_reason(file, bytes, bases, at),
        _ => reason_of(file, bytes, at.number, cause),
    }
}

/// Why a period doesn't fit, or a column, in a line of a file.
fn stage_reason(
    file: FileKind,
    bytes: &[u8],
    bases: Bases<'_>,
    at: RefusedLine<'_>,
) -> &'static str {
    match file {
        FileKind::Stoch => stage_fault(bytes, bases, at),
        _ => sentence(file, Cause::EntryStage),
    }
}

/// Why a file of these bytes is refused.
fn reason_of(file: FileKind, bytes: &[u8], number: u32, cause: Cause) -> &'static str {
    match cause {
        Cause::ReportBad if matches!(file, FileKind::Report) => report_fault(bytes, number),
        _ => sentence(file, cause),
    }
}

/// Appends the names or the lines that a cause is about, beside its own.
fn put_values(
    alloc: Global,
    text: &mut String,
    bytes: &[u8],
    bases: Bases<'_>,
    cause: Cause,
) -> Result<(), AllocError> {
    match cause {
        Cause::NotTriangular { row, column } => {
            put_name(text, ": the row ", row_named(bases.core, row))?;
            put_name(text, ", the column ", column_named(bases.core, column))
        }
        Cause::RowMissing(row) => put_name(text, ": ", row_named(bases.core, row)),
        Cause::ColumnMissing(column) => put_name(text, ": ", column_named(bases.core, column)),
        Cause::ProbabilitySum(sum) => put_sum(alloc, text, bytes, sum),
        _ => Ok(()),
    }
}

/// Appends a name in quotes behind what goes before it; nothing where it isn't known.
fn put_name(text: &mut String, before: &str, name: Option<&[u8]>) -> Result<(), AllocError> {
    match name {
        Some(name) => {
            text.push_str(before)?;
            text.push_str("'")?;
            push_line(text, name)?;
            text.push_str("'")
        }
        None => Ok(()),
    }
}
