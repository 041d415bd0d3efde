//! Kinds of constraints.

/// What a constraint says of its sum: at most, at least, or equal to its right-hand side.
#[derive(Clone, Copy, Debug, PartialEq, Eq)]
pub enum RowKind {
    Less,
    Greater,
    Equal,
}
