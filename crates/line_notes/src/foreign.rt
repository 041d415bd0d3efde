//! Forms of other tools that are refused, and what is written in their place.
use crate::fault_field::{chance, is_zero};
use crate::unused::{Section, used_set};
use core_defs::Cause;
use file_lines::{Bases, RefusedLine, field, is_free, numbered_line};
use input_files::FileKind;

const MARK: &str =
    "the file begins with a byte order mark: save it as UTF-8 without one, and not as UTF-16";

const LEAST: &str = "leave that section out: the least cost is looked for in any case";

const MOST: &str =
    "leave that section out, and turn the signs of all costs round, and that of the result";

const EITHER: &str =
    "leave that section out: the least cost is looked for; for the most, turn the signs of all costs round, and that of the result";

const SCENARIOS: &str = "write SCENARIOS";

const WHOLE_BOUND: &str =
    "nothing is decided in whole numbers, or as yes or no: write LO and UP where fractions do, UP with 1 for BV";

const WHOLE_MARKER: &str =
    "nothing is decided in whole numbers: take the lines of MARKER out where fractions do";

const CONSTANT: &str =
    "take it out; a constant cost is that of a column that FX fixes at 1, and some tools take the right-hand side for less that constant";

const NO_UPPER: &str = "where there is no bound write PL (above) or MI (below), or 1E30 or -1E30";

const NO_END: &str =
    "no number is infinite: a row without an end on one side is of kind L or G, one without both of kind N";

const FREE: &str = "N rows are of no period: leave that line out";

const ROOT: &str = "write ROOT without double quotes";

const RIGHT_SIDE: &str = "write RHS in place of the column";

const NO_CHANCE: &str =
    "that line has three fields, and so states a value: a case begins with BL, block, period and probability, \
a scenario with SC, name, parent, probability and period";

const RANDOM_BOUND: &str =
    "bounds can't be random: state the bound in the core file as a row, whose right-hand side the stoch file sets";

const IMPOSSIBLE: &str = "leave out what has the probability 0, with the values below its line";

const CONTINUOUS: &str =
    "no distribution is continuous: state cases that stand for it, each with its probability";

const TRANSFORMED: &str =
    "state in DISCRETE the cases that the transformation comes to, each with its probability";

const TAIL: &str = "TAIL_H, TAIL_U and TAIL_R are names in a report that was made with --tail: \
check it with the same --tail and --weight; table takes neither";

/// What to write in place of a line that is refused, where it has a form of another tool.
pub fn remedy(
    file: FileKind,
    cause: Cause,
    bytes: &[u8],
    bases: Bases<'_>,
    at: RefusedLine<'_>,
) -> Option<&'static str> {
    if at.number == 1 && is_marked(bytes) {
        return Some(MARK);
    }
    match file {
        FileKind::Core => core_remedy(cause, bytes, at),
        FileKind::Time => match cause {
            Cause::StartUnknown if at.section == b"ROWS".as_slice() => {
                said(is_free(bases.core, field(at.line, 0)?), FREE)
            }
            _ => None,
        },
        FileKind::Stoch => stoch_remedy(cause, bases, at),
        FileKind::Report => match (cause, field(at.line, 1)) {
            (Cause::ReportBad, Some(b"TAIL_H" | b"TAIL_U" | b"TAIL_R")) => Some(TAIL),
            _ => None,
        },
        FileKind::Edits | FileKind::Basis | FileKind::Measures => None,
    }
}

/// Words, where that is so.
fn said(is_so: bool, words: &'static str) -> Option<&'static str> {
    if is_so { Some(words) } else { None }
}

/// Whether a file begins with a byte order mark, that of UTF-8 or one of UTF-16.
fn is_marked(bytes: &[u8]) -> bool {
    matches!(
        bytes,
        [0xEF, 0xBB, 0xBF, ..] | [0xFE, 0xFF, ..] | [0xFF, 0xFE, ..]
    )
}

/// In a core file.
fn core_remedy(cause: Cause, bytes: &[u8], at: RefusedLine<'_>) -> Option<&'static str> {
    match cause {
        Cause::SectionUnknown => match field(at.line, 0) {
            Some(b"OBJSENSE") => Some(sense(bytes, at)),
            Some(b"OBJMAX" | b"MAX" | b"MAXIMIZE") => Some(MOST),
            Some(b"OBJMIN" | b"MIN" | b"MINIMIZE") => Some(LEAST),
            _ => None,
        },
        Cause::BoundKind => match field(at.line, 0) {
            Some(b"BV" | b"LI" | b"UI" | b"SC") => Some(WHOLE_BOUND),
            _ => None,
        },
        Cause::IntegerMarker => Some(WHOLE_MARKER),
        Cause::RowUnknown | Cause::FieldCount => match field(at.line, 1) {
            Some(b"MARKER" | b"'MARKER'" | b"\"MARKER\"") => Some(WHOLE_MARKER),
            _ => None,
        },
        Cause::ObjectiveRhs => Some(CONSTANT),
        Cause::NumberBad if !has_infinite(at.line) => None,
        Cause::NumberBad => Some(if at.section == b"BOUNDS".as_slice() {
            NO_UPPER
        } else {
            NO_END
        }),
        _ => None,
    }
}

/// What is said of OBJSENSE, whose word stands behind it or on the next line.
fn sense(bytes: &[u8], at: RefusedLine<'_>) -> &'static str {
    let below = numbered_line(bytes, at.number.saturating_add(1)).unwrap_or(&[]);
    let word = match field(at.line, 1) {
        Some(word) => word,
        None => field(below, 0).unwrap_or(&[]),
    };
    match word {
        b"MAX" | b"MAXIMIZE" | b"MAXIMISE" => MOST,
        b"MIN" | b"MINIMIZE" | b"MINIMISE" => LEAST,
        _ => EITHER,
    }
}

/// Whether a field of a line says that a number is infinite.
fn has_infinite(line: &[u8]) -> bool {
    line.split(|byte| matches!(byte, b' ' | b'\t' | b'\r' | b'+' | b'-'))
        .any(|word| { word.eq_ignore_ascii_case(b"INF") || word.eq_ignore_ascii_case(b"INFINITY") })
}

/// In a stoch file.
fn stoch_remedy(cause: Cause, bases: Bases<'_>, at: RefusedLine<'_>) -> Option<&'static str> {
    let word = field(at.line, 0)?;
    match cause {
        Cause::SectionUnknown => said(matches!(word, b"SCEN" | b"SCENARIO"), SCENARIOS),
        Cause::KindUnknown => match field(at.line, 1)? {
            b"NORMAL" | b"UNIFORM" | b"BETA" | b"GAMMA" | b"LOGNORM" | b"LOGNORMAL" | b"MVNORMAL" =>
                Some(CONTINUOUS),
            b"LINTR" | b"SUB" => Some(TRANSFORMED),
            _ => None,
        },
        Cause::ParentUnknown => said(field(at.line, 2) == Some(b"\"ROOT\""), ROOT),
        Cause::ProbabilityRange => said(is_zero(field(at.line, chance(at)?)?), IMPOSSIBLE),
        Cause::EntryUnknown if matches!(word, b"BL" | b"SC") => said(at.count == 3, NO_CHANCE),
        Cause::EntryUnknown if matches!(word, b"RIGHT" | b"RIGHTS" | b"Rhs" | b"rhs") => {
            Some(RIGHT_SIDE)
        }
        Cause::EntryUnknown | Cause::FieldCount => said(is_bound(bases, word), RANDOM_BOUND),
        _ => None,
    }
}

/// Whether a word is a kind of bound, or the name of the set of bounds that the core uses.
fn is_bound(bases: Bases<'_>, word: &[u8]) -> bool {
    if matches!(word, b"UP" | b"LO" | b"FX" | b"FR" | b"MI" | b"PL") {
        return true;
    }
    match used_set(bases.core, Section::Bounds) {
        Some(set) => set.name == Some(word),
        None => false,
    }
}
