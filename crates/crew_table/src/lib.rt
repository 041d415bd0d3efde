//! The table of a machine with several workers: each begins nodes and commits under its own number, and the calls ask for nothing.
#![tactic(auto)]

mod crew;

pub use crew::Crew;
