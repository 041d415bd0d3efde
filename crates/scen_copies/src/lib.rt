//! Copies of what programs have: names, columns, rows, and rows of nodes.
#![tactic(auto)]

mod copies;

pub use copies::{copied_columns, copied_name, copied_names, copied_node_rows, copied_rows};
