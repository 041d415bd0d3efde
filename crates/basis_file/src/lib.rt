//! Basis files: which columns and rows of the program of all nodes are basic, and at which ends the others stand, as solvers of the text
//! that `flat` prints write it. Only safety is proved of what is read: what is made of a basis is tested.
#![tactic(auto)]

mod fault;
mod given;
mod lines;
mod named;
mod reading;

pub use fault::BasisFault;
pub use given::GivenBasis;
pub use reading::read_basis;
