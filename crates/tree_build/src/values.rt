//! The values of a node: its costs, and the entries and right-hand sides of its rows.
ghost use Rattle.std.specs.Prelude.{◌≡◌, ◌≤◌, ◌↔◌, ◌&&◌, IsTrue, nat_lt, nat_eq, get_or, length, take, drop, IfOk};
ghost use Rattle.std.specs.Prelude.{OnOk};
ghost use Rattle.tree_build.specs.Rows.{RowsFrom, RowsBelow, IsRowAt};
ghost use Rattle.time_defs.specs.Periods.{stages};
ghost use Rattle.tree_build.specs.Values.{put_at, with_entry, with_rhs, at_row, values_content, with_set, with_sets};

use crate::parts::{RowValues, Values};
use crate::terms::with_value;
use crate::turns::{falling, set_backwards};
use core_defs::Core;
use frac128::{Form, Frac, Memory};
use smps_words::Entry;
use std::alloc::Global;
use std::mem;
use time_defs::Periods;

/// How many rows stand before a row of that number, found by bisection.
fn place(rows: &[RowValues], row: u64) -> usize
    requires { RowsFrom 0 rows.now }
    ensures before { RowsBelow row (take result rows.now) }
    ensures behind { RowsFrom row (drop result rows.now) }
    ensures within { result ≤ length rows.now }
{
    let mut first = 0;
    let mut end = rows.len();
    'bisection: while first < end {
        let middle = first + (end - first) / 2;
        let found = rows[middle].row as u64;
        if found < row {
            first = middle + 1;
        } else {
            end = middle;
        }
    }
    first
}

/// Whether a row of that number stands in that place.
fn is_row_at(rows: &[RowValues], at: usize, row: u64) -> bool
    ensures { IsTrue result ↔ IsRowAt rows.now at row }
{
    at < rows.len() && rows[at].row as u64 == row
}

/// Sets the value in a column of a row.
fn set_in_row(alloc: Global, row: &mut RowValues, column: u64, value: Frac) -> Result<(), Memory>
    ensures set { OnOk result (row.new ≡ with_entry column value row.old) }
    ensures row { row.new.row ≡ row.old.row }
{
    let form = mem::replace(&mut row.entries, Form::empty(alloc));
    row.entries = with_value(alloc, form, column, value)?;
    Ok(())
}

/// Sets the value in a column of a row, where there is a row of that number.
fn set_entry(
    alloc: Global,
    rows: &mut Vec<RowValues>,
    row: u64,
    column: u64,
    value: Frac,
) -> Result<(), Memory>
    requires { RowsFrom 0 rows.old.items }
    ensures set { OnOk result (rows.new.items ≡ at_row row (with_entry column value) rows.old.items) }
    ensures rises { RowsFrom 0 rows.new.items }
{
    let at = place(rows, row);
    if is_row_at(rows, at, row) {
        set_in_row(alloc, &mut rows[at], column, value)?;
    }
    Ok(())
}

/// Sets the right-hand side of a row, where there is a row of that number.
fn set_rhs(rows: &mut Vec<RowValues>, row: u64, value: Frac)
    requires { RowsFrom 0 rows.old.items }
    ensures set { rows.new.items ≡ at_row row (with_rhs value) rows.old.items }
    ensures rises { RowsFrom 0 rows.new.items }
{
    let at = place(rows, row);
    if is_row_at(rows, at, row) {
        rows[at].rhs = value;
    }
}

/// Whether a column is of a stage, by the stages of all columns.
fn is_of_stage(columns: &[u32], column: u64, stage: usize) -> bool
    ensures { result ≡ (nat_lt column (length columns.now) && nat_eq (get_or columns.now column 0) stage) }
{
    let place = column as usize;
    place < columns.len() && columns[place] as usize == stage
}

/// Sets the cost of a column.
fn set_cost(alloc: Global, values: &mut Values, column: u64, value: Frac) -> Result<(), Memory>
    ensures cost { OnOk result (values.new.cost ≡ put_at column value values.old.cost) }
    ensures rows { OnOk result (values.new.rows.items ≡ values.old.rows.items) }
{
    let form = mem::replace(&mut values.cost, Form::empty(alloc));
    values.cost = with_value(alloc, form, column, value)?;
    Ok(())
}

/// Sets an entry of a node of that stage. An entry of another stage changes nothing.
pub(crate) fn set(
    alloc: Global,
    core: &Core,
    periods: &Periods,
    stage: usize,
    values: &mut Values,
    entry: Entry,
    value: Frac,
) -> Result<(), Memory>
    ensures { OnOk result (values_content values.new ≡ with_set core.now (stages periods.now) stage
        (values_content values.old) entry value) }
{
    match entry {
        Entry::Cost { column } => {
            if is_of_stage(&periods.column_stage, column as u64, stage) {
                set_cost(alloc, values, column as u64, value)?;
            }
            Ok(())
        }
        Entry::Matrix { row, column } => {
            if (column as u64) < core.columns.len() as u64 {
                set_entry(alloc, &mut values.rows, row as u64, column as u64, value)?;
            }
            Ok(())
        }
        Entry::Rhs { row } => {
            set_rhs(&mut values.rows, row as u64, value);
            Ok(())
        }
    }
}

/// Sets entries of a node of that stage, one after another.
pub(crate) fn set_all(
    alloc: Global,
    core: &Core,
    periods: &Periods,
    stage: usize,
    values: &mut Values,
    sets: &[(Entry, Frac)],
) -> Result<(), Memory>
    ensures { OnOk result (values_content values.new
        ≡ with_sets core.now (stages periods.now) stage (values_content values.old) sets.now) }
{
    let mut rest = sets;
    'runs: while !rest.is_empty() {
        let count = falling(rest);
        let (front, behind) = rest.split_at(count);
        set_backwards(alloc, core, periods, stage, values, front)?;
        rest = behind;
    }
    Ok(())
}

fn copied_rows(alloc: Global, rows: &[RowValues]) -> Result<Vec<RowValues>, Memory>
    ensures { IfOk result (λ copy. copy.items ≡ rows.now) }
{
    let mut copy = Vec::with_capacity(alloc, rows.len())?;
    for row in rows {
        let entries = row.entries.copy(alloc)?;
        copy.push(RowValues {
            row: row.row,
            entries,
            rhs: row.rhs,
        })?;
    }
    Ok(copy)
}

/// Equal values in memory of their own.
pub(crate) fn copied(alloc: Global, values: &Values) -> Result<Values, Memory>
    ensures { IfOk result (λ copy. values_content copy ≡ values_content values.now) }
{
    let cost = values.cost.copy(alloc)?;
    let rows = copied_rows(alloc, &values.rows)?;
    Ok(Values { cost, rows })
}
