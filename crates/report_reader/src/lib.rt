//! Reads the text of reports.
#![tactic(auto)]

mod draft;
mod fault;
mod findings;
mod lines;
mod lists;
mod numbers;
mod pieces;
mod reading;
mod tables;

pub use reading::read_reports;
