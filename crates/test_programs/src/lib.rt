//! Programs that tests and benchmarks are made of, as texts and read, and texts that show of a program what `show` doesn't print.
#![tactic(auto)]

mod notes;
mod reading;
mod samples;

pub use notes::{nodes_text, stated_text};
pub use reading::read_source;
pub use samples::{COVER, FARMER, Source};
