//! The nested method on a program: its steps, what it finds, and how it goes on behind an edit.
#![tactic(auto)]

mod crew;
mod edits;
mod found;
mod laws;
mod method;

pub use found::Found;
pub use laws::{histories_make_sound, touches_stand};
pub use method::{Method, Working};
