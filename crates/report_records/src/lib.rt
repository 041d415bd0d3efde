//! A report for planners as comma-separated values and as JSON.
#![tactic(auto)]

mod comma;
mod json;

pub use comma::print_csv;
pub use json::print_json;
