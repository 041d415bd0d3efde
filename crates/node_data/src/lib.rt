//! What a run of the nested method sees of a program: the tree's frame, versions of data, and the data of a node.
#![tactic(auto)]

mod datum;
mod frame;
mod versions;

pub use datum::{data_are_the_books, datum_of};
pub use frame::Frame;
pub use versions::{Version, Versions};
