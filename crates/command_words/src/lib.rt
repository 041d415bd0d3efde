//! The words of a command, read exactly: a reader of its own decides which words are a command, and the library for command lines
//! finds the values in the plain form of those that are.
#![tactic(auto)]

mod command;
mod flag;
mod plain;
mod reader;
mod settings;
mod table;
mod value;
mod values;

pub use command::{
    Budget, Command, Extent, Page, Plan, RiskMeasure, Sheet, SheetForm, Sources, Task, Verb,
};
pub use flag::Flag;
pub use plain::PlainWords;
pub use settings::Setting;
pub use table::{CommandRow, FLAGS, FORMS, MOST_WORKERS, OptionRow, PAGES, VERBS, ValueKind, YES};
