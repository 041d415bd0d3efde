//! What it is worth to know what comes, and to plan for all that may come: the reports of the programs that say so, six numbers, and
//! their text.
#![tactic(auto)]

mod measured;
mod numbers;
mod printed;
mod reports;
mod text;

pub use measured::{Measures, measure};
pub use numbers::ValueNumbers;
pub use printed::{PrintedReport, ScenarioReport};
pub use text::print_measures;
