//! The solve of a node's program by a guess: a basis in floating point and its exact numbers, which are tested before anything
//! is believed of them; and by the simplex path where there is no guess that stands its test.
#![tactic(auto)]

mod again;
mod answers;
mod broken;
mod hints;
mod rounds;
mod sizes;
mod solved;

pub use hints::{Hints, LentHint};
pub use sizes::effort;
pub use solved::solved_node;
