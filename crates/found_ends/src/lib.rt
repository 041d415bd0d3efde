//! What is known in a run of the nested method: the last solves of the nodes, what they cost together, and the ends of the least cost;
//! whether anything is left to find, and what is claimed at the end.
#![tactic(auto)]

mod claims;
mod costs;
mod ends;
mod last;
mod settled;

pub use claims::{Closed, claimed};
pub use costs::cost;
pub use ends::{Bounded, Ends, Priced};
pub use last::{Last, Lasts};
pub use settled::{Settled, ended, shown, why_open};
