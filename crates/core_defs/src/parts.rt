//! The constraints and columns of a core.
use frac128::{Form, Frac};
use smps_words::{Name, RowKind};

/// A constraint.
#[derive(Drop)]
pub struct RowDef {
    pub name: Name,
    pub kind: RowKind,
    /// The right-hand side.
    pub rhs: Frac,
    /// The range, where one is stated.
    pub range: Option<Frac>,
}

/// A column.
#[derive(Drop)]
pub struct ColumnDef {
    pub name: Name,
    pub cost: Frac,
    /// The values that aren't 0, by the numbers of the constraints.
    pub entries: Form,
    /// The lower bound, where there is one.
    pub lower: Option<Frac>,
    /// The upper bound, where there is one.
    pub upper: Option<Frac>,
}

/// What the lines of COLUMNS say of a column.
#[derive(Drop)]
pub struct ColumnPart {
    pub cost: Frac,
    /// The values that aren't 0, by the numbers of the constraints.
    pub entries: Form,
}
