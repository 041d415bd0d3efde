//! Probabilities after an edit: scaled scenarios, and the test of their sums.
#![tactic(auto)]

mod chances;
mod portions;
mod scaled;

pub use chances::{add_scenarios, drop_scenarios, prob_scenarios, test_tree};
pub use portions::fits_all_trees;
