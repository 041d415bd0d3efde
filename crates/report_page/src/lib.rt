//! A report as one page of HTML, with nothing from outside.
#![tactic(auto)]

mod cells;
mod conflict;
mod costs;
mod escape;
mod frame;
mod layout;
mod page;
mod scale;
mod tables;
mod tree;
mod worth;

pub use page::print_page;
