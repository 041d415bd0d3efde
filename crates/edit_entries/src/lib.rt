//! An entry, the ends of a row, or a cost of one node set in place.
#![tactic(auto)]

mod entry;
mod set;

pub use entry::{length_with, with_entry};
pub use set::{set_cost, set_ends, set_matrix};
