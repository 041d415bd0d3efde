//! Programs on a scenario tree, points and multipliers on them, and what a report says.
#![tactic(auto)]

mod program;
mod report;
mod values;

pub use program::{Column, Node, NodeRow, Program, Row, Scenario};
pub use report::{Finding, Halt, Kind, Place, Report};
pub use values::{Value, Values};
