//! A claim about a whole program at once, of the nodes of all periods together. It is a guess: nothing is said of it here,
//! and whoever tells it tests it first.
#![tactic(auto)]

mod claim;
mod digest;
mod flat;
mod given;
mod hint;
mod layout;
mod lists;
mod part;
mod rays;

pub use claim::{guessed_claim, near_claim};
pub use given::given_claim;
pub use hint::WholeHint;
pub use rays::shorter_ray;
