//! The program on a tree that a core, its periods and its scenarios mean.
#![tactic(auto)]

mod base;
mod branches;
mod choices;
mod finish;
mod laws;
mod least;
mod limits;
mod names;
mod nodes;
mod numbering;
mod parts;
mod program;
mod rows;
mod scenarios;
mod seen;
mod terms;
mod turns;
mod values;
mod wheels;

pub use laws::{built_are_programs, read_cases_hold, read_periods_are_named};
pub use program::build;
