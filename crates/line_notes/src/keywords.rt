//! Words of the files that are written in capitals.
use core_defs::Cause;

const WORDS: [&[u8]; 40] = [
    b"NAME",
    b"ROWS",
    b"COLUMNS",
    b"RHS",
    b"RANGES",
    b"BOUNDS",
    b"ENDATA",
    b"TIME",
    b"PERIODS",
    b"IMPLICIT",
    b"EXPLICIT",
    b"STOCH",
    b"INDEP",
    b"BLOCKS",
    b"SCENARIOS",
    b"DISCRETE",
    b"REPLACE",
    b"ADD",
    b"MULTIPLY",
    b"N",
    b"L",
    b"G",
    b"E",
    b"LO",
    b"UP",
    b"FX",
    b"FR",
    b"MI",
    b"PL",
    b"BL",
    b"SC",
    b"SET",
    b"PROB",
    b"DROP",
    b"WORK",
    b"SOLVE",
    b"REPORT",
    b"STATUS",
    b"LOWER",
    b"UPPER",
];

/// Whether a field would be a word of the files in capitals, where the cause is that it isn't one.
pub fn is_small_word(cause: Cause, word: &[u8]) -> bool {
    match cause {
        Cause::SectionUnknown
        | Cause::RowKind
        | Cause::BoundKind
        | Cause::KindUnknown
        | Cause::CommandUnknown => WORDS
            .iter()
            .any(|known| known.eq_ignore_ascii_case(word) && *known != word),
        _ => false,
    }
}
