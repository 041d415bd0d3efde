//! Nodes of a program on a tree: where they stand, what a run derives of their data, and which values are theirs.
#![tactic(auto)]

mod derived;
mod fitting;
mod tree;

pub use derived::{derive, derived_bound, derived_cost, derived_rows};
pub use fitting::{fits, is_column_of};
pub use tree::{find, home, is_above, parent, stage};
