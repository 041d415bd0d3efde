//! The sections of a core file.

/// The part of the file that the last header began.
#[derive(Clone, Copy, PartialEq, Eq)]
pub enum Section {
    /// There was no header.
    Start,
    Name,
    Rows,
    Columns,
    Rhs,
    Ranges,
    Bounds,
    End,
}
