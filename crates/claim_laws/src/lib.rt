//! What is claimed of a program, and is so, is shown by the report of the claim, but where a sum of a test passes 128 bits; and why the
//! report of any claim is left open. No code that runs.
#![tactic(auto)]

mod laws;

pub use laws::{claims_are_told, recession_points_are_directions};
