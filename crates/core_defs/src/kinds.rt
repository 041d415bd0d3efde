//! The kinds of rows and of bounds.
use smps_words::RowKind;

/// What the kind of a row says of it.
#[derive(Clone, Copy, PartialEq, Eq)]
pub enum RowUse {
    /// N: the objective, or a row that is skipped.
    Free,
    Constraint(RowKind),
}

/// The kinds of the lines of BOUNDS.
#[derive(Clone, Copy, PartialEq, Eq)]
pub enum BoundKind {
    /// LO sets the lower bound.
    Lower,
    /// UP sets the upper bound.
    Upper,
    /// FX sets both.
    Fixed,
    /// FR removes both.
    Free,
    /// MI removes the lower bound.
    NoLower,
    /// PL removes the upper bound.
    NoUpper,
}
