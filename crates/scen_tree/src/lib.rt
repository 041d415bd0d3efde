//! The tree of a program: the children of each node, its total and its share.
#![tactic(auto)]

mod children;
mod position;
mod shares;
mod totals;
mod tree;

pub use children::{Children, children_of};
pub use position::Position;
pub use shares::{Chances, node_chances};
pub use tree::{Tree, positions_of};
