//! What the forms of a report for planners have in common: a report with the program that it is of, and names, findings and numbers in
//! words.
#![tactic(auto)]

mod ends;
mod measures;
mod names;
mod numbers;
mod prices;
mod spread;
mod table;
mod words;

pub use ends::{ExpectedCost, expected_cost, shared_text};
pub use measures::{MeasureLine, are_of_other_program, measure_lines};
pub use names::{short_name, shown_name};
pub use numbers::{decimal_text, exact_text, put_count};
pub use prices::row_price;
pub use spread::{CostLine, CostStep, cost_lines, cost_steps};
pub use table::Table;
pub use words::{finding_word, print_finding};
