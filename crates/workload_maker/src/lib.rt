//! Workloads: texts of programs on trees that are made from four numbers.
#![tactic(auto)]

mod columns;
mod lines;
mod made;
mod page;
mod rows;
mod stoch;

pub use made::{Made, make};
