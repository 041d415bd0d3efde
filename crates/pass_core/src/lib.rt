//! The nested method on a tree of nodes: what is known of a program, and what a step does.
#![tactic(auto)]

mod budget;
mod close;
mod commit;
mod desk;
mod edit;
mod ground;
mod jobs;
mod laws;
mod seen;
mod state;

pub use budget::Budget;
pub use found_ends::{Closed, Settled};
pub use jobs::{Job, solve_all};
pub use laws::{made_ends_assemble_well, roots_assemble_well};
pub use state::{Begun, State};
