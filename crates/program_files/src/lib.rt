//! The program that the texts of a core, a time and a stoch file mean, and the script and the reports that those of an edit list and a
//! report file mean for it.
#![tactic(auto)]

mod edited;
mod laws;
mod reading;

pub use edited::{read_edits, read_told};
pub use laws::texts_mean_one_program;
pub use reading::{Unread, read_program};
