//! The programs whose optima say what information and the stochastic model are worth: of one scenario by itself, of the means, and with
//! fixed decisions of the first period.
#![tactic(auto)]

mod first_period;
mod line;
mod means;
mod one_scenario;
mod parts;
mod sums;

pub use first_period::fixed_program;
pub use means::mean_program;
pub use one_scenario::scenario_program;
