//! Edit lists: what their commands mean, line by line; the edits of one applied after each other to a program, and how many reports it
//! asks for.
#![tactic(auto)]

mod command;
mod draft;
mod edits;
mod entries;
mod numbers;
mod reading;
mod single;
mod solving;
mod tables;
mod whole;

pub use reading::read_script;
pub use single::applied;
pub use solving::solves;
pub use whole::apply_all;
