//! What points cost and multipliers are worth, rounded to one side where 128 bits don't do, and whether a point meets its rows.
#![tactic(auto)]

mod costs;
mod meets;
mod rows;
mod worths;

pub use costs::cost_beside;
pub use meets::is_feasible;
pub use rounded_sums::Side;
pub use worths::worth_beside;
