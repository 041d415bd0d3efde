//! A report of a report file, tested, in the form that a planner asks for.
#![tactic(auto)]

mod form;
mod place;
mod sheet;
mod walk;

pub use sheet::{NoSheet, print_sheet};
