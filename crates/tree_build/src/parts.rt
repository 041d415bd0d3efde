//! What nodes have.
ghost use Rattle.tree_build.specs.Rows.{RowsFrom, RowsFrom-prop};

use frac128::{Form, Frac};

/// A row of a node, but for its interval.
#[derive(Drop)]
pub struct RowValues {
    /// The number of the row.
    pub row: u32,
    /// The entries by column.
    pub entries: Form,
    /// The right-hand side.
    pub rhs: Frac,
}

/// What a node has.
#[derive(Drop)]
pub struct Values {
    /// The costs by column.
    pub cost: Form,
    /// The rows of its stage, rising.
    pub rows: Vec<RowValues>,
    ghost rising: { RowsFrom 0 rows.items } by { RowsFrom-prop 0 rows.items },
}
