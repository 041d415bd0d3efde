//! The cases that the files `*.cases` of crates/case_runner/data state, line by line (FORM.md there has their form).
#![tactic(auto)]

mod block;
mod cases;
mod documents;
mod escapes;
mod faults;
mod reading;

pub use cases::{Case, Part, Want};
pub use faults::Wrong;
pub use reading::Reader;
