//! What a table of a report shows: values, activities, reduced costs, slacks and the costs of scenarios, with exact fractions.
#![tactic(auto)]

mod amount;
mod node;
mod reduced;
mod sums;
mod tree;

pub use amount::{Amount, ColumnCells, RowCells};
pub use sums::{ReportValues, are_of_ray, gap};
