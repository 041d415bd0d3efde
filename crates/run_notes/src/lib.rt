//! What is said on standard error of how a run ended.
#![tactic(auto)]

mod about;
mod absent;
mod based;
mod checked;
mod distance;
mod explain;
mod help;
mod levels;
mod measured;
mod partial;
mod plain;
mod refusal;
mod reported;
mod sheets;
mod titles;
mod unread;
mod whole;
mod words;

pub use explain::{MEMORY, NOT_TEXT, UNEXPLAINED, explanation};
pub use words::put_word_fault;
