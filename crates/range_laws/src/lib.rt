//! What is read has the widths of its rows' ranges. No code that runs.
#![tactic(auto)]

mod laws;

pub use laws::{built_have_widths, meant_have_widths};
