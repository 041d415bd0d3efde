//! A report for planners as text for a terminal.
#![tactic(auto)]

mod aligned;
mod amounts;
mod lines;
mod parts;

pub use lines::print_text;
