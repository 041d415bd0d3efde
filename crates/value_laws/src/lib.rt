//! How the programs by which information and the stochastic model are valued stand to the whole program: what is feasible for one of them,
//! and what it costs, is so for another. No code that runs.
#![tactic(auto)]

mod laws;

pub use laws::{fixing_saves_nothing, knowing_costs_nothing};
