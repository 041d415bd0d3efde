//! Linear programs over bounded columns in floating point, solved by the dual and then by the primal simplex method.
//!
//! What comes out is a guess: an answer, the columns that are basic and the bounds at which the others stand. No more
//! is promised of it than that it comes without a fault; whoever uses it solves for the exact numbers of that basis
//! and tests them.
#![tactic(auto)]

mod dense;
mod dense_dual;
mod dense_primal;
mod dual;
mod dual_choice;
mod dual_steps;
mod primal;
mod primal_choice;
mod primal_steps;
mod solver;

pub use bounded_basis::{FloatProgram, Standing, Turned};
pub use solver::{End, Ended, solve, solve_with_factors};
