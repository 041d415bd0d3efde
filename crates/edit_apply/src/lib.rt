//! The application of an edit to a program, in place.
#![tactic(auto)]

mod apply_add;
mod apply_drop;
mod apply_prob;
mod apply_set;
mod copies;
mod counts;
mod facts;
mod fault;
mod in_place;
mod kept;
mod lengths;
mod positions;
mod sets;

pub use counts::count;
pub use facts::{is_inner, is_known, is_late};
pub use fault::ApplyFault;
pub use in_place::{apply_counted, apply_near};
