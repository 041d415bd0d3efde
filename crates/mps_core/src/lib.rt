//! Core files: the reader of the MPS format, and the linear program that it gives.
#![tactic(auto)]

mod bounds;
mod columns;
mod draft;
mod keywords;
mod limits;
mod lines;
mod number;
mod pairs;
mod places;
mod reading;
mod rows;
mod sets;
mod terms;
mod values;
mod whole;

pub use core_defs::{Cause, ColumnDef, Core, ReadFail, Refusal, RowDef};
pub use reading::read_core;
