//! The checks of the reports of a script, and their text.
#![tactic(auto)]

mod checks;
mod single;
mod text;

pub use checks::check_script;
pub use single::{Checked, check_single};
pub use text::{all_hold, print_checks};
