//! Lines on standard error that say how a run goes on.
#![tactic(auto)]

mod lines;
mod watcher;

pub use lines::{ended_line, seen_line, whole_line};
pub use watcher::Watcher;
