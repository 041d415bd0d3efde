//! Edits of a program: what a program is after an edit, what the edit touches, and the data of nodes by version.
#![tactic(auto)]

mod counts;
mod edit;
mod laws;
mod look;
mod right;

pub use counts::Counts;
pub use edit::{Act, Edit, Item, Script, Touched};
pub use laws::{
    edits_keep_programs, edits_without_cause_apply, gone_are_dropped, right_sides_shift,
    scripts_make_books, untouched_stays, widths_stay, worked_script,
};
pub use look::{find, home, home_near, path, place_near, probability, row_of, stage_of};
pub use right::right_ends;
