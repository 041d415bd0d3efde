//! Reads the six numbers of a text that the command `value` printed.
#![tactic(auto)]

mod fault;
mod lines;
mod numbers;
mod reading;

pub use numbers::StatedMeasures;
pub use reading::read_measures;
