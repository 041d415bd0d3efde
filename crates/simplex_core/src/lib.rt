//! The simplex method in exact fractions.
#![tactic(auto)]

mod choice;
mod costs;
mod drive;
mod duals;
mod entries;
mod line;
mod outcome;
mod point;
mod row;
mod sign;
mod solver;
mod standard;
mod start;
mod tableau;

pub use outcome::Outcome;
pub use sign::is_above_zero;
pub use solver::solve;
pub use standard::Standard;
