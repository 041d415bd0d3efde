//! Multipliers that show that a program has no point.
#![tactic(auto)]

mod multipliers;

pub use multipliers::is_ray;
