//! What a line says.

use crate::given::GivenBasis;
use bounded_basis::Standing;
use scen_defs::Program;
use smps_words::{Line, Words};
use std::alloc::AllocError;

/// The kinds of lines.
macro_rules! kind_words {
    () => {
        Words::new(b"XU XL UL LL", [1, 2, 3, 4])
    };
}

/// What a line says of the columns and rows that it names.
#[derive(Clone, Copy)]
enum LineKind {
    /// The column is basic, and the row stands at this end.
    Exchange(Standing),
    /// The column stands at this bound.
    Rests(Standing),
}

/// The kind of a word.
fn kind_of(word: &[u8]) -> Option<LineKind> {
    let words = kind_words!();
    match words.find(word) {
        Some(1) => Some(LineKind::Exchange(Standing::High)),
        Some(2) => Some(LineKind::Exchange(Standing::Low)),
        Some(3) => Some(LineKind::Rests(Standing::High)),
        Some(4) => Some(LineKind::Rests(Standing::Low)),
        _ => None,
    }
}

/// Whether a line is the header of that word.
pub(crate) fn is_header(line: &Line<'_>, word: &[u8]) -> bool {
    match line.first() {
        Some(first) => line.header && first == word,
        None => false,
    }
}

/// Makes a column basic, and a row not. False where the program has none of that name, or it came before.
fn exchange(
    given: &mut GivenBasis,
    program: &Program,
    column: &[u8],
    row: &[u8],
    end: Standing,
) -> Result<bool, AllocError> {
    Ok(given.put_column(program, column, Standing::Basic)? && given.put_row(program, row, end)?)
}

/// Takes a line behind NAME. False where it is at fault; what stands behind its names isn't looked at.
pub(crate) fn take(
    given: &mut GivenBasis,
    program: &Program,
    line: &Line<'_>,
) -> Result<bool, AllocError> {
    let [word, one, two, ..] = line.fields;
    match kind_of(word) {
        Some(LineKind::Exchange(end)) if !line.header && line.count >= 3 => {
            exchange(given, program, one, two, end)
        }
        Some(LineKind::Rests(bound)) if !line.header && line.count >= 2 => {
            given.put_column(program, one, bound)
        }
        _ => Ok(false),
    }
}
