//! Elimination in a sparse square matrix, over floats or over the residues modulo a prime: the part that is left, and
//! the choice of the next pivot.
//!
//! Pivots are chosen by Markowitz's counts (H. M. Markowitz, The elimination form of the inverse, 1957), in the order
//! of Suhl and Suhl (Computing sparse LU factorizations for large-scale linear programming bases, 1990): first
//! columns with one entry, then rows with one entry, then the least product of counts that a few lists show, where
//! the entry isn't small beside the others of its row.
#![tactic(auto)]

mod active;
mod buckets;
mod entries;
mod markowitz;
mod matrix;
mod numbers;

pub use active::{Active, taken};
pub use entries::{Entry, NONE, at, narrow, put};
pub use markowitz::{Pick, choose};
pub use matrix::Matrix;
pub use numbers::Number;
