//! What a core file means, and which of its lines is refused for which cause.
#![tactic(auto)]

mod bounds;
mod kinds;
mod laws;
mod number;
mod parts;
mod place;
mod program;
mod section;

pub use bounds::ColumnBounds;
pub use kinds::{BoundKind, RowUse};
pub use laws::core_file_laws;
pub use number::number_of;
pub use parts::{ColumnDef, ColumnPart, RowDef};
pub use place::RowPlace;
pub use program::Core;
pub use refusals::{Cause, ReadFail, Refusal};
pub use section::Section;
