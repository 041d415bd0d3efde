//! The reports of a program on a tree: of one solve, and of a script of edits and solves.
#![tactic(auto)]

mod based;
mod items;
mod nearer;
mod running;
mod scripts;
mod shorter;
mod told;
mod whole;

pub use based::told_of_basis;
pub use running::session;
pub use scripts::scripted;
pub use told::Told;
pub use whole::{Answered, StatedLimits};
pub use whole_guess::WholeHint;
