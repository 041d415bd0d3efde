//! Policies and multipliers near the optimal ones of a program, with few places behind the point: for where those of the optimal basis have
//! more than 128 bits. Floats solve the program with its rows moved inward a little, and its dual with moved costs; what is rounded of them
//! then holds exactly. Equal ends are met by exact steps. Nothing is promised of the numbers: whoever relies on them tests them.
#![tactic(auto)]

mod field;
mod multipliers;
mod point;
mod round;
mod standings;
mod tests;

pub use multipliers::near_multipliers;
pub use point::near_point;
