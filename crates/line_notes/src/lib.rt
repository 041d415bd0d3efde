//! What is said of lines of files on standard error: why one is refused and which of its fields are at fault, and which lines
//! aren't used.
#![tactic(auto)]

mod causes;
mod digits;
mod doubts;
mod fault_field;
mod foreign;
mod keywords;
mod refused;
mod report_fault;
mod stage_fault;
mod sums;
mod twofold;
mod unused;
mod unused_text;

pub use causes::sentence;
pub use digits::put_most_digits;
pub use doubts::put_doubts;
pub use refused::put_cause;
pub use sums::put_divided;
pub use unused_text::put_unused;
