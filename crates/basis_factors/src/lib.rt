//! Sparse LU factors of a square matrix, over floats or over the residues modulo a prime: what the basis of a linear
//! program is solved with. Nothing is promised of the numbers: whoever needs more tests them.
#![tactic(auto)]

mod factors;
mod lists;
mod solves;

pub use basis_pivots::{Entry, Matrix, Number};
pub use factors::{Factored, Factors};
