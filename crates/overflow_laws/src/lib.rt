//! The operations in which solves, offers and sums end, and a sum that ends in none. No code that runs.
#![tactic(auto)]

mod laws;

pub use laws::{points_join, walks_end_passing};
