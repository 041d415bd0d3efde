//! The fields of a refused line that are at fault, where the line and those before it tell which they are.
use crate::unused::{Section, Set, used_set};
use core_defs::Cause;
use file_lines::{
    Bases, RefusedLine, field, field_count, is_free, is_stated, numbered_line, objective,
    period_place, row_kind,
};
use frac128::{NumFault, parse};
use input_files::FileKind;
use std::alloc::AllocError;
use std::fmt::Write;
use visible_text::push_line;

/// Where the fields at fault stand in their line, counted from 0.
#[derive(Clone, Copy, Drop)]
enum Places {
    One(usize),
    /// A column and a row, which name an entry together.
    Entry(usize, usize),
}

/// Appends the fields at fault in a line of a file of these bytes, where it is sure which they are.
pub fn put_fault(
    text: &mut String,
    file: FileKind,
    cause: Cause,
    bytes: &[u8],
    bases: Bases<'_>,
    at: RefusedLine<'_>,
) -> Result<(), AllocError> {
    put_places(text, at.line, where_at_fault(file, cause, bytes, bases, at))
}

/// The field at fault in a line of a file of these bytes, where it is one, and sure.
pub fn fault_word<'a>(
    file: FileKind,
    cause: Cause,
    bytes: &[u8],
    bases: Bases<'_>,
    at: RefusedLine<'a>,
) -> Option<&'a [u8]> {
    match where_at_fault(file, cause, bytes, bases, at) {
        Some(Places::One(place)) => field(at.line, place),
        _ => None,
    }
}

/// Appends how many fields the line with this number has, where that is at fault.
pub fn put_count(
    text: &mut String,
    cause: Cause,
    bytes: &[u8],
    number: u32,
) -> Result<(), AllocError> {
    match (cause, numbered_line(bytes, number)) {
        (Cause::FieldCount, Some(line)) => {
            let count = field_count(line);
            write!(text, ": it has {count}")
        }
        _ => Ok(()),
    }
}

/// Appends the fields at these places of a line in quotes.
fn put_places(text: &mut String, line: &[u8], places: Option<Places>) -> Result<(), AllocError> {
    match places {
        Some(Places::One(place)) => put_field(text, ": ", line, place),
        Some(Places::Entry(column, row)) => {
            put_field(text, ": ", line, column)?;
            put_field(text, " ", line, row)
        }
        None => Ok(()),
    }
}

/// Appends the field at this place of a line in quotes, behind what goes before it.
fn put_field(text: &mut String, before: &str, line: &[u8], place: usize) -> Result<(), AllocError> {
    match field(line, place) {
        Some(word) => {
            text.push_str(before)?;
            text.push_str("'")?;
            push_line(text, word)?;
            text.push_str("'")
        }
        None => Ok(()),
    }
}

/// Where the fields at fault stand in a line of a file; none where it isn't sure.
fn where_at_fault(
    file: FileKind,
    cause: Cause,
    text: &[u8],
    bases: Bases<'_>,
    at: RefusedLine<'_>,
) -> Option<Places> {
    match file {
        FileKind::Core => Some(Places::One(core_place(text, at, cause)?)),
        FileKind::Time => Some(Places::One(time_place(bases.core, at, cause)?)),
        FileKind::Stoch => stoch_places(bases, at, cause),
        FileKind::Edits => edit_places(at, cause),
        FileKind::Report | FileKind::Basis | FileKind::Measures => None,
    }
}

/// In a core file.
fn core_place(text: &[u8], at: RefusedLine<'_>, cause: Cause) -> Option<usize> {
    match cause {
        Cause::SectionUnknown
        | Cause::SectionOrder
        | Cause::RowKind
        | Cause::ColumnSplit
        | Cause::BoundKind => Some(0),
        Cause::RowTwice | Cause::IntegerMarker => Some(1),
        Cause::ObjectiveRhs => {
            let first = first_row(at);
            let is_first = objective(text) == field(at.line, first)
                && !is_zero(field(at.line, first.saturating_add(1))?);
            Some(row_at_fault(at, is_first).saturating_add(1))
        }
        Cause::RangeOnFree => {
            let is_first = is_free(text, field(at.line, first_row(at))?);
            Some(row_at_fault(at, is_first))
        }
        Cause::RowUnknown => {
            let is_stated = is_stated(text, b"ROWS", 1, field(at.line, first_row(at))?);
            Some(row_at_fault(at, !is_stated))
        }
        Cause::NumberBad => core_number(at, NumFault::Bad),
        Cause::NumberWide => core_number(at, NumFault::Wide),
        Cause::BoundsCross | Cause::UpperNegative | Cause::ColumnUnknown => bound_column(at),
        Cause::EntryTwice => doubled_row(at),
        _ => None,
    }
}

/// Where the first row of a line of pairs of row and value stands.
fn first_row(at: RefusedLine<'_>) -> usize {
    match at.section {
        b"RHS" | b"RANGES" => at.count % 2,
        _ => 1,
    }
}

/// The row at fault of a line of pairs of row and value: the first one where that is so, or else the second.
fn row_at_fault(at: RefusedLine<'_>, is_first: bool) -> usize {
    let first = first_row(at);
    if is_first {
        first
    } else {
        first.saturating_add(2)
    }
}

/// The first number of a line of a core file that has this fault.
fn core_number(at: RefusedLine<'_>, fault: NumFault) -> Option<usize> {
    if at.section == b"BOUNDS".as_slice() {
        return at.count.checked_sub(1);
    }
    let first = first_row(at);
    first_number(
        at.line,
        first.saturating_add(1),
        first.saturating_add(3),
        fault,
    )
}

/// Which of two fields is the first that has this fault of a number.
fn first_number(line: &[u8], first: usize, second: usize, fault: NumFault) -> Option<usize> {
    if has_fault(line, first, fault) {
        Some(first)
    } else if has_fault(line, second, fault) {
        Some(second)
    } else {
        None
    }
}

fn has_fault(line: &[u8], place: usize, fault: NumFault) -> bool {
    match field(line, place) {
        Some(word) => parse(word) == Err(fault),
        None => false,
    }
}

/// Whether a field is a number, and 0.
pub fn is_zero(word: &[u8]) -> bool {
    match parse(word) {
        Ok(number) => number.is_zero(),
        Err(_) => false,
    }
}

/// The column of a line of BOUNDS.
fn bound_column(at: RefusedLine<'_>) -> Option<usize> {
    match (field(at.line, 0), at.count) {
        (Some(b"LO" | b"UP" | b"FX"), count) => count.checked_sub(2),
        (_, 2) => Some(1),
        _ => Some(2),
    }
}

/// The row that stands twice; none where an earlier line decides which of two it is.
fn doubled_row(at: RefusedLine<'_>) -> Option<usize> {
    let first = first_row(at);
    let second = first.saturating_add(2);
    match field(at.line, second) {
        None => Some(first),
        Some(row) if field(at.line, first) == Some(row) => Some(second),
        Some(_) => None,
    }
}

/// In a time file: of a period's start the column, where the core file doesn't state it, or else the row.
fn time_place(core: &[u8], at: RefusedLine<'_>, cause: Cause) -> Option<usize> {
    match cause {
        Cause::SectionUnknown | Cause::SectionOrder | Cause::PlaceTwice => Some(0),
        Cause::StartUnknown if at.section == b"PERIODS".as_slice() && core.is_empty() => None,
        Cause::StartUnknown if at.section == b"PERIODS".as_slice() => {
            Some(is_stated(core, b"COLUMNS", 0, field(at.line, 0)?) as usize)
        }
        Cause::StartUnknown => Some(0),
        Cause::PeriodUnknown => Some(1),
        Cause::PeriodOrder | Cause::PeriodTwice => at.count.checked_sub(1),
        _ => None,
    }
}

/// In a stoch file.
fn stoch_places(bases: Bases<'_>, at: RefusedLine<'_>, cause: Cause) -> Option<Places> {
    match cause {
        Cause::SectionUnknown | Cause::SectionOrder | Cause::ScenariosMixed => Some(Places::One(0)),
        Cause::KindUnknown => Some(Places::One(unknown_word(at))),
        Cause::EntryUnknown => unknown_entry(bases.core, at),
        Cause::EntryTwice => entry(at),
        Cause::EntryStage => stage(bases.time, at),
        Cause::NumberBad => Some(Places::One(stoch_number(at, NumFault::Bad)?)),
        Cause::NumberWide => Some(Places::One(stoch_number(at, NumFault::Wide)?)),
        Cause::ProbabilityRange => Some(Places::One(chance(at)?)),
        Cause::ParentUnknown => Some(Places::One(2)),
        Cause::BranchPeriod => Some(Places::One(4)),
        Cause::ScenarioTwice => Some(Places::One(1)),
        _ => None,
    }
}

/// The first word of a header that says nothing that is known.
fn unknown_word(at: RefusedLine<'_>) -> usize {
    match (field(at.line, 1), field(at.line, 2)) {
        (Some(b"DISCRETE"), Some(b"REPLACE" | b"ADD" | b"MULTIPLY")) => 3,
        (Some(b"DISCRETE"), _) => 2,
        _ => 1,
    }
}

/// The entry of a line that names one.
fn entry(at: RefusedLine<'_>) -> Option<Places> {
    if at.section == b"INDEP".as_slice() || at.count <= 3 {
        Some(Places::Entry(0, 1))
    } else {
        None
    }
}

/// The entry of a line that names one, and of two of them the one that the core doesn't have.
fn unknown_entry(core: &[u8], at: RefusedLine<'_>) -> Option<Places> {
    match entry(at) {
        Some(places) => Some(places),
        None if core.is_empty() => None,
        None if is_place(core, field(at.line, 0)?, field(at.line, 1)?) => {
            Some(Places::Entry(0, 3))
        }
        None => Some(Places::Entry(0, 1)),
    }
}

/// Whether a column and a row name an entry: a column of the core, or in a constraint's row what stands for a right-hand side.
fn is_place(core: &[u8], column: &[u8], row: &[u8]) -> bool {
    match row_kind(core, row) {
        None => false,
        Some(b"N") => objective(core) == Some(row) && is_column(core, column),
        Some(_) => is_column(core, column) || is_right_side(core, column),
    }
}

/// Whether a core file states a column of this name.
fn is_column(core: &[u8], name: &[u8]) -> bool {
    is_stated(core, b"COLUMNS", 0, name)
}

/// Whether a word in place of a column stands for a right-hand side: RHS, or the name of the set of RHS that is used.
fn is_right_side(core: &[u8], word: &[u8]) -> bool {
    match used_set(core, Section::Rhs) {
        Some(Set { name: Some(name) }) if name == word => true,
        _ => word == b"RHS".as_slice(),
    }
}

/// The period that doesn't fit, or the entry that doesn't go with one.
fn stage(time: &[u8], at: RefusedLine<'_>) -> Option<Places> {
    if at.begins_case() {
        return Some(Places::One(2));
    }
    if at.section == b"INDEP".as_slice() && at.count == 5 {
        return if is_unfit(time, field(at.line, 3)?, field(at.line, 4)?) {
            Some(Places::One(3))
        } else {
            None
        };
    }
    entry(at)
}

/// Whether it is sure that a field before the last one isn't a period of INDEP: it is a number and the last field, where the probability
/// stands, isn't one; or the time file has no period of that name behind the first. A period may have a number for a name.
fn is_unfit(time: &[u8], period: &[u8], last: &[u8]) -> bool {
    let is_swapped = parse(period).is_ok() && parse(last).is_err();
    is_swapped || (!time.is_empty() && !is_later_period(time, period))
}

/// Whether a time file states a period of this name behind the first.
fn is_later_period(time: &[u8], name: &[u8]) -> bool {
    matches!(period_place(time, name), Some(place) if place > 0)
}

/// The first number of a line of a stoch file that has this fault.
fn stoch_number(at: RefusedLine<'_>, fault: NumFault) -> Option<usize> {
    if at.begins_case() {
        return Some(3);
    }
    let last = if at.section == b"INDEP".as_slice() {
        at.count.checked_sub(1)?
    } else {
        4
    };
    first_number(at.line, 2, last, fault)
}

/// The probability of a line that has one.
pub fn chance(at: RefusedLine<'_>) -> Option<usize> {
    if at.begins_case() {
        Some(3)
    } else {
        at.count.checked_sub(1)
    }
}

/// In an edit list.
fn edit_places(at: RefusedLine<'_>, cause: Cause) -> Option<Places> {
    match (cause, field(at.line, 0)?) {
        (Cause::EditEntryUnknown | Cause::EntryStage, _) => Some(Places::Entry(2, 3)),
        (Cause::CommandUnknown, _) => Some(Places::One(0)),
        (Cause::ScenarioUnknown, b"ADD") => Some(Places::One(2)),
        (Cause::ScenarioUnknown | Cause::NameTaken | Cause::LastScenario, _) => Some(Places::One(
            1,
        )),
        (Cause::BranchPeriod, _) => Some(Places::One(4)),
        (Cause::NumberBad | Cause::NumberWide, b"SET") => Some(Places::One(4)),
        (Cause::NumberBad | Cause::NumberWide, b"WORK") => Some(Places::One(1)),
        (Cause::NumberBad | Cause::NumberWide | Cause::EditProbability, b"ADD") => Some(Places::One(
            3,
        )),
        (Cause::NumberBad | Cause::NumberWide | Cause::EditProbability, b"PROB") => Some(
            Places::One(2),
        ),
        _ => None,
    }
}
