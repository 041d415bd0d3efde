//! The data of a node, and the sums of a cut: what they are, and those over the node's rows and columns.
#![tactic(auto)]

mod checks;
mod datum;
mod gathered;
mod own;
mod sums;
mod tally;
mod unreduced;

pub use datum::NodeDatum;
pub use gathered::{add_costs, keep_row_orders, outer_terms, push_outside, take_rows};
pub use own::is_own;
pub use sums::{Priced, Worth, add_columns, add_rows, add_worth, cost_of, less_rows, push_nonzero};
pub use tally::{Found, add_form, near, zeros};
pub use unreduced::Unreduced;
