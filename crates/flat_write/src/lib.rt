//! A program on a tree as one core file: each column and each row once at each node of its stage, for other solvers.
#![tactic(auto)]

mod bounds;
mod columns;
mod fault;
mod limits;
mod lists;
mod operations;
mod pieces;
mod rows;
mod whole;

pub use fault::FlatFault;
pub use limits::FlatLimits;
pub use whole::write_flat;
