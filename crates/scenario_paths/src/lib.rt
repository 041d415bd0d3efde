//! The scenarios of a stoch file, with the values on their paths.
#![tactic(auto)]

mod hand;
mod hands;
mod paths;

pub use hand::Scenario;
pub use paths::Paths;
