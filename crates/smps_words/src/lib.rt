//! The words of SMPS files: their lines and fields, and names.
#![tactic(auto)]

mod bytes;
mod entry;
mod line;
mod lines;
mod name;
mod names;
mod row_kind;
mod words;

pub use entry::Entry;
pub use line::Line;
pub use lines::Lines;
pub use name::Name;
pub use names::Names;
pub use row_kind::RowKind;
pub use words::Words;
