//! The program whose least cost is the least of a weighted mean and conditional value at risk.
#![tactic(auto)]

mod costs;
mod fault;
mod laws;
mod names;
mod nodes;
mod path;
mod rates;
mod row;
mod size;
mod tail;

pub use fault::TailFault;
pub use laws::tail_costs_are_risks;
pub use tail::tail_program;
