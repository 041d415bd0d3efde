//! Prints programs, reports and the operations that they name.
#![tactic(auto)]

mod lists;
mod pieces;
mod print;
mod show;

pub use pieces::print_operation;
pub use print::{print_outcome, print_report};
pub use show::print_program;
