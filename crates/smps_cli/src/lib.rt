//! The top call: runs the command that the words name, over a shelf and a sink.
#![tactic(auto)]

mod answer;
mod based;
mod check;
mod fetched;
mod flat;
mod found;
mod input;
mod make;
mod refuse;
mod risk;
mod show;
mod solve;
mod table;
mod top_call;
mod value;
mod within;
mod write;

pub use answer::Ran;
pub use exit_status::{FileKind, Status};
pub use fetched::Fetched;
pub use found::{Checks, Found, Lack, Summary};
pub use script_checks::Checked;
pub use smps_session::Told;
pub use top_call::run;
pub use value_measures::{Measures, PrintedReport, ScenarioReport};
