//! What the points of all nodes are together, where each of them meets its rows and bounds at the values of the nodes above it, and
//! that the lists that a run finds fit the program: those points, and the multipliers of a cut by node and row. No code that runs.
#![tactic(auto)]

mod fits;
mod joins;

pub use fits::{
    current_are_on_rows, forms_assemble, made_are_on_rows, multipliers_fit, policies_fit,
};
pub use joins::{joined_points_cost, policies_join, values_cover};
