//! What all forms are made of.
use frac128::Memory;
use report_values::{ColumnCells, ReportValues, RowCells};
use scen_defs::{Program, Report};
use std::alloc::Global;
use value_reader::StatedMeasures;

/// A program, a report of it, what a table shows of both, and what `value` printed, where that is shown too.
#[derive(Drop)]
pub struct Table<'a> {
    pub program: &'a Program,
    pub report: &'a Report,
    pub values: ReportValues,
    pub measures: Option<StatedMeasures>,
}

impl<'a> Table<'a> {
    /// The table of a program and a report of it.
    pub fn of(
        alloc: Global,
        program: &'a Program,
        report: &'a Report,
        measures: Option<StatedMeasures>,
    ) -> Result<Table<'a>, Memory> {
        let values = ReportValues::of(alloc, program, report)?;
        Ok(Table {
            program,
            report,
            values,
            measures,
        })
    }

    /// The columns of a node, in their order.
    pub fn columns(&self, alloc: Global, node: u32) -> Result<Vec<ColumnCells>, Memory> {
        self.values.columns(alloc, self.program, self.report, node)
    }

    /// The rows of a node, in their order.
    pub fn rows(&self, alloc: Global, node: u32) -> Result<Vec<RowCells>, Memory> {
        self.values.rows(alloc, self.program, self.report, node)
    }

    /// The name of a column.
    pub fn column_name(&self, column: u32) -> &[u8] {
        match self.program.columns.get(column as usize) {
            Some(found) => found.name.as_bytes(),
            None => b"",
        }
    }

    /// The name of a row.
    pub fn row_name(&self, row: u32) -> &[u8] {
        match self.program.rows.get(row as usize) {
            Some(found) => found.name.as_bytes(),
            None => b"",
        }
    }

    /// The name of a period, which is counted from 0.
    pub fn period_name(&self, stage: u32) -> &[u8] {
        match self.program.periods.get(stage as usize) {
            Some(name) => name.as_bytes(),
            None => b"",
        }
    }
}
