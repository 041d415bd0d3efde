//! Why a text is refused, and at which line.
#![tactic(auto)]

mod cause;

pub use cause::{Cause, ReadFail, Refusal};
