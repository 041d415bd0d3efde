//! The keywords of a core file.
ghost use Rattle.std.specs.Prelude.{◌≡◌};
ghost use Rattle.core_defs.specs.Bounds.{bound_kind, has_value};
ghost use Rattle.core_defs.specs.Section.{section_of, rank};
ghost use Rattle.core_defs.specs.Stated.{use_of};
ghost use Rattle.mps_core.specs.Keywords.{section_at, bound_kind_at};

use core_defs::{BoundKind, RowUse, Section};
use smps_words::{RowKind, Words};

/// The words of headers.
macro_rules! section_words {
    () => {
        Words::new(
            b"NAME ROWS COLUMNS RHS RANGES BOUNDS ENDATA",
            [1, 2, 3, 4, 5, 6, 7],
        )
    };
}

/// The kinds of rows.
macro_rules! row_words {
    () => {
        Words::new(b"N L G E", [1, 2, 3, 4])
    };
}

/// The kinds of the lines of BOUNDS.
macro_rules! bound_words {
    () => {
        Words::new(b"LO UP FX FR MI PL", [1, 2, 3, 4, 5, 6])
    };
}

/// The section with this code.
fn section_at(code: Option<u8>) -> Option<Section>
    ensures { result ≡ section_at code }
{
    match code {
        Some(1) => Some(Section::Name),
        Some(2) => Some(Section::Rows),
        Some(3) => Some(Section::Columns),
        Some(4) => Some(Section::Rhs),
        Some(5) => Some(Section::Ranges),
        Some(6) => Some(Section::Bounds),
        Some(7) => Some(Section::End),
        _ => None,
    }
}

/// The section that a header's first word names.
#[tactic(auto, using(crate::proofs::KeywordLemmas::section_means))]
pub(crate) fn section_of(word: &[u8]) -> Option<Section>
    ensures { result ≡ section_of word.now }
{
    let words = section_words!();
    section_at(words.find(word))
}

/// The place in the order of sections.
pub(crate) fn rank(section: Section) -> u8
    ensures { result ≡ rank section }
{
    match section {
        Section::Start => 0,
        Section::Name => 1,
        Section::Rows => 2,
        Section::Columns => 3,
        Section::Rhs => 4,
        Section::Ranges => 5,
        Section::Bounds => 6,
        Section::End => 7,
    }
}

/// What a row's kind says.
pub(crate) fn use_of(word: &[u8]) -> Option<RowUse>
    ensures { result ≡ use_of word.now }
{
    let words = row_words!();
    match words.find(word) {
        Some(1) => Some(RowUse::Free),
        Some(2) => Some(RowUse::Constraint(RowKind::Less)),
        Some(3) => Some(RowUse::Constraint(RowKind::Greater)),
        Some(4) => Some(RowUse::Constraint(RowKind::Equal)),
        _ => None,
    }
}

/// The kind of bounds with this code.
fn bound_kind_at(code: Option<u8>) -> Option<BoundKind>
    ensures { result ≡ bound_kind_at code }
{
    match code {
        Some(1) => Some(BoundKind::Lower),
        Some(2) => Some(BoundKind::Upper),
        Some(3) => Some(BoundKind::Fixed),
        Some(4) => Some(BoundKind::Free),
        Some(5) => Some(BoundKind::NoLower),
        Some(6) => Some(BoundKind::NoUpper),
        _ => None,
    }
}

/// The kind of a line of BOUNDS.
#[tactic(auto, using(crate::proofs::KeywordLemmas::bound_means))]
pub(crate) fn bound_kind(word: &[u8]) -> Option<BoundKind>
    ensures { result ≡ bound_kind word.now }
{
    let words = bound_words!();
    bound_kind_at(words.find(word))
}

/// Whether a line of this kind has a value.
pub(crate) fn has_value(kind: BoundKind) -> bool
    ensures { result ≡ has_value kind }
{
    match kind {
        BoundKind::Lower | BoundKind::Upper | BoundKind::Fixed => true,
        BoundKind::Free | BoundKind::NoLower | BoundKind::NoUpper => false,
    }
}
