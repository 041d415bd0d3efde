//! Which row a name is.

/// Which row a name is.
#[derive(Clone, Copy, PartialEq, Eq)]
pub enum RowPlace {
    /// The N row with this number; the first is the objective.
    Free(usize),
    /// The constraint with this number.
    Constraint(usize),
}
