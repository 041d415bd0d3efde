//! Checks what a report claims of its program.
#![tactic(auto)]

mod claims;
mod ends;
mod lists;
mod rounding;
mod shape;
mod text;
mod verdict;

pub use claims::check;
pub use text::print_verdict;
pub use verdict::{Claim, Verdict};
