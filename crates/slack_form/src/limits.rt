//! Programs whose rows are of three kinds.

use frac128::{Form, Frac};
use smps_words::RowKind;

/// A row: its form is at most, at least or equal to its right side.
#[derive(Drop)]
pub struct Limit {
    pub entries: Form,
    pub kind: RowKind,
    pub right: Frac,
}

/// A linear program: minimise the cost where all columns are at least 0 and each row keeps to its right
/// side.
#[derive(Drop)]
pub struct Limits {
    /// How many columns there are; they are numbered from 0.
    pub columns: u64,
    pub rows: Vec<Limit>,
    pub cost: Form,
}
