//! What the program that files mean is built of: intervals of rows, and the entries of rows.
#![tactic(auto)]

mod ends;
mod fault;
mod forms;
mod name;

pub use ends::interval;
pub use fault::BuildFault;
pub use forms::{put, row_forms};
pub use name::copied;
