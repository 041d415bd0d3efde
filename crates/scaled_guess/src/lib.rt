//! Linear programs whose numbers are of unlike sizes, solved in floating point: the columns, the rows, the costs and the bounds are
//! multiplied by powers of 2 first, so that entries are near 1. Nothing is promised of what comes out, as of any guess.
#![tactic(auto)]

mod exponents;
mod powers;
mod scaled;

pub use scaled::{are_unlike, solve_scaled};
