//! Rows that are at most, at least or equal to their right sides, as equations over columns that are at
//! least 0.
//!
//! The slack columns come behind the columns, one for each row that isn't an equation, in the order of
//! their rows: it has 1 in a row that is at most its right side and -1 in one that is at least. A row with
//! a right side below 0 is then multiplied by -1.
#![tactic(auto)]

mod laws;
mod limits;
mod signs;
mod slacks;

pub use laws::slack_form_means;
pub use limits::{Limit, Limits};
pub use signs::own_duals;
pub use slacks::standard;
