//! Exact solutions of sparse square systems of equations over fractions: digits modulo a prime, by lifting
//! (J. D. Dixon, Exact solution of linear equations using p-adic expansions, 1982), and the fractions that have them.
//! Nothing is promised of the numbers: whoever relies on them tests them.
#![tactic(auto)]

mod dense;
mod lift;
mod residue;
mod restore;
mod system;
mod whole;
mod wide;

pub use system::System;
