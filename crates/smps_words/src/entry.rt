//! Entries of a linear program.

/// A number of a linear program that a file may set.
#[derive(Clone, Copy, Debug, Drop, PartialEq, Eq, Hash)]
pub enum Entry {
    /// The cost of a column.
    Cost { column: u32 },
    /// The entry of a column in a constraint.
    Matrix { row: u32, column: u32 },
    /// The right-hand side of a constraint.
    Rhs { row: u32 },
}
