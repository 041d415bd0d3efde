//! The pools of all nodes in the runs of the three kinds, and what an edit leaves of them.
#![tactic(auto)]

mod bank;
mod banks;
mod pools;

pub use banks::Banks;
pub use pools::Read;
