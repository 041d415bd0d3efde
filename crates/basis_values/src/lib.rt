//! Exact values of the basis of a linear program, which floats have found: digits modulo a prime, and the fractions that
//! have them. What is found is tested, and repaired where the floats were a little wrong. Nothing is promised of the
//! numbers: whoever relies on them tests them.
#![tactic(auto)]

mod exact_program;
mod guesses;
mod kernel;
mod ray;
mod refuted;
mod solution;
mod sums;
mod zoom;

pub use exact_program::{ExactColumn, ExactProgram, ExactRow};
pub use guesses::{Guessed, guess, guess_from};
pub use solution::Solution;
