//! What a table shows of the columns and rows of a node.
use crate::amount::{Amount, ColumnCells, RowCells};
use crate::sums::{ReportValues, multipliers_of};
use crate::tree::{above, column_stage};
use frac128::{Frac, Memory, Term};
use scen_defs::{Node, NodeRow, Program, Report, Values};
use scen_nodes::find;
use std::alloc::Global;

/// The value of a list at a node.
fn value_in_list(list: &Option<Values>, node: u64, index: u64) -> Amount {
    match list {
        Some(values) => Amount::Known(values.get(node, index)),
        None => Amount::Absent,
    }
}

/// The sum of a row's entries times the values of its columns, each at the node of the path that decides it.
fn activity(program: &Program, policy: &Option<Values>, node: u64, entries: &[Term]) -> Amount {
    let Some(values) = policy else {
        return Amount::Absent;
    };
    let mut sum = Amount::Known(Frac::zero());
    for entry in entries {
        let home = above(program, node, column_stage(program, entry.column));
        sum = sum.plus_product(entry.value, values.get(home, entry.column));
    }
    sum
}

/// How far an activity is from the nearer end.
fn slack(activity: &Amount, low: &Amount, high: &Amount) -> Amount {
    activity.less(low).least(&high.less(activity))
}

/// The multiplier of a row at a node.
fn multiplier(report: &Report, node: u64, row: u64) -> Amount {
    match multipliers_of(report) {
        Some((values, _)) => Amount::Known(values.get(node, row)),
        None => Amount::Absent,
    }
}

/// Puts what is shown of a row behind the others, where the row is one of the program.
fn push_row(
    all: &mut Vec<RowCells>,
    program: &Program,
    report: &Report,
    node: u64,
    row: &NodeRow,
) -> Result<(), Memory> {
    if row.row as usize >= program.rows.len() {
        return Ok(());
    }
    let activity = activity(program, &report.policy, node, row.entries.terms());
    let low = Amount::of_end(row.low);
    let high = Amount::of_end(row.high);
    all.push(RowCells {
        row: row.row,
        activity,
        low,
        high,
        slack: slack(&activity, &low, &high),
        multiplier: multiplier(report, node, u64::from(row.row)),
    })?;
    Ok(())
}

impl ReportValues {
    /// The reduced cost of a column at a node, by its seat.
    fn reduced_cost(&self, node: u32, seat: usize) -> Amount {
        let Some(reduced) = &self.reduced else {
            return Amount::Absent;
        };
        match reduced.get(node as usize) {
            Some(numbers) => match numbers.get(seat) {
                Some(number) => *number,
                None => Amount::Absent,
            },
            None => Amount::Absent,
        }
    }

    /// What is shown of a column.
    fn column_cells(
        &self,
        program: &Program,
        report: &Report,
        found: &Node,
        node: u32,
        seat: usize,
        column: u32,
    ) -> Option<ColumnCells> {
        let stated = program.columns.get(column as usize)?;
        let place = u64::from(node);
        let index = u64::from(column);
        Some(ColumnCells {
            column,
            cost: found.cost.get(index),
            value: value_in_list(&report.policy, place, index),
            direction: value_in_list(&report.direction, place, index),
            lower: Amount::of_end(stated.lower),
            upper: Amount::of_end(stated.upper),
            reduced: self.reduced_cost(node, seat),
        })
    }

    /// The columns of a node, in their order; none of a node that was dropped.
    pub fn columns(
        &self,
        alloc: Global,
        program: &Program,
        report: &Report,
        node: u32,
    ) -> Result<Vec<ColumnCells>, Memory> {
        let mut all = Vec::new(alloc);
        let Some(found) = find(&program.nodes, u64::from(node)) else {
            return Ok(all);
        };
        for (seat, column) in self.seating.columns(found.stage).iter().enumerate() {
            if let Some(cells) = self.column_cells(program, report, found, node, seat, *column) {
                all.push(cells)?;
            }
        }
        Ok(all)
    }

    /// The rows of a node, in their order; none of a node that was dropped.
    pub fn rows(
        &self,
        alloc: Global,
        program: &Program,
        report: &Report,
        node: u32,
    ) -> Result<Vec<RowCells>, Memory> {
        let mut all = Vec::new(alloc);
        if let Some(found) = find(&program.nodes, u64::from(node)) {
            for row in &found.rows {
                push_row(&mut all, program, report, u64::from(node), row)?;
            }
        }
        Ok(all)
    }
}
