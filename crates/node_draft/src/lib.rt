//! A node's program as it is guessed: its own columns and rows at the trial, the costs of its children in groups, and those cuts as rows
//! that are needed. No more is promised of it than that it is made without a fault.
#![tactic(auto)]

mod cut_rows;
mod draft;
mod floats;
mod groups;
mod hint;
mod split;

pub use cut_rows::{add_first, add_rows, end_bounds};
pub use draft::{Draft, cut_at, first_draft, is_priced, is_taken};
pub use floats::{FloatCut, FloatCuts, Sum, distance, float_at, value_at};
pub use groups::{Group, group_at, group_factor, size_of};
pub use hint::{HeldCut, HeldCuts, Hint};
pub use split::place_of;
