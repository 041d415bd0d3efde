// The parts of a node's data that are lists.
use frac128::Frac;

/// A column of the node's stage with its bounds.
#[derive(Clone, Copy, Debug)]
pub struct ColumnBounds {
    /// The place of the column in the program.
    pub column: u32,
    /// No lower bound where it is `None`.
    pub lower: Option<Frac>,
    /// No upper bound where it is `None`.
    pub upper: Option<Frac>,
}

/// A child of the node with its probability where the node is reached.
#[derive(Clone, Copy, Debug)]
pub struct Share {
    /// The child's number.
    pub child: u32,
    /// Above 0 and at most 1.
    pub share: Frac,
}
