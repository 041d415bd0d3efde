//! Cuts with the records that prove them.
#![tactic(auto)]

mod child;
mod columns;
mod cut;
mod fault;
mod gathered;
mod laws;
mod making;
mod repair;
mod resting;
mod stamps;
mod sums;

pub use child::ChildCuts;
pub use cut::{Cut, Record, SharedCut, Used};
pub use cut_defs::{Bank, ColumnBounds, CutKind, Part, Share, Shift, Stamp, Touch};
pub use cut_sums::{NodeDatum, push_nonzero};
pub use fault::CutFault;
pub use laws::{nothing_is_made, repairs_are_exact, values_are_exact};
pub use repair::shifted;
pub use resting::{rests, stamp_rests};
