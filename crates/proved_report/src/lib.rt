//! Reports whose lists are tested before they are printed.
#![tactic(auto)]

mod claim;
mod counts;
mod open;
mod reports;
mod tested;

pub use claim::Claim;
pub use open::{Open, is_passing};
pub use reports::report;
pub use tested::Tested;
