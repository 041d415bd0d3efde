//! The files that the words name, fetched from a shelf.
#![tactic(auto)]

mod fetch;
mod kind;

pub use fetch::{FILE_LIMIT, Texts, Unfetched, fetched_texts};
pub use kind::FileKind;
