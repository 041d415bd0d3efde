//! Bytes of a file as a terminal or a page may show them.
#![tactic(auto)]

mod visible;

pub use visible::{push_line, push_name, push_visible};
