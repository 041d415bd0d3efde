//! Sums of products that are rounded to one side where 128 bits don't do.
#![tactic(auto)]

mod grid;
mod shares;
mod side;
mod split;
mod steps;

pub use side::Side;
pub use split::SplitSum;
pub use steps::{add_product, side_of_factor};
