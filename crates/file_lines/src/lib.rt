//! The lines and fields of files, the names that a core file states, the periods of a time file, and a line that is refused with
//! where it stands: read for what is said on standard error.
#![tactic(auto)]

mod bases;
mod core_names;
mod lines;
mod refused_line;
mod stages;

pub use bases::Bases;
pub use core_names::{
    column_named, column_place, is_free, is_stated, objective, row_kind, row_named,
};
pub use lines::{Line, end_field, field, field_count, is_blank, kind_of, numbered_line, raw_line};
pub use refused_line::RefusedLine;
pub use stages::{column_stage, entry_stage, period_place, row_stage};
