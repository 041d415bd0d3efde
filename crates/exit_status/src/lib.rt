//! How a run ends, the number of its exit status, and the line that says so.
#![tactic(auto)]

mod status;

pub use input_files::FileKind;
pub use status::{Status, command_status, file_word, is_open, open_status};
