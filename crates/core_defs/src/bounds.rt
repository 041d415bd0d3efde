//! The bounds of a column while its file is read.
use frac128::Frac;

/// The bounds of a column, by the lines of BOUNDS so far.
#[derive(Clone, Copy)]
pub struct ColumnBounds {
    /// The lower bound, where there is one.
    pub lower: Option<Frac>,
    /// The upper bound, where there is one.
    pub upper: Option<Frac>,
    /// A line has set or removed the lower bound.
    pub stated: bool,
}
