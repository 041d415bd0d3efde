//! Equations over fractions that are met exactly by moving a few numbers a little: those that stand in one equation alone first, and the
//! others by elimination. Nothing is promised of the moves: whoever relies on them tests the numbers.
#![tactic(auto)]

mod lists;
mod lone;
mod meet;

pub use meet::{Equations, moved};
