// Whether values are of a program's nodes, and of their rows or columns.
ghost use Rattle.std.specs.Prelude.{◌≡◌, eqb};
ghost use Rattle.scen_defs.specs.Lists.{passes_at};
ghost use Rattle.scen_defs.specs.declared.program.Row.{Row as RowOf};
ghost use Rattle.scen_defs.specs.declared.program.Column.{Column as ColumnOf};
ghost use Rattle.scen_defs.specs.Program.{content};
ghost use Rattle.scen_nodes.specs.Derived.{all_fit, fits_at};

use crate::tree::find;
use scen_defs::{Column, Program, Row, Value, Values};

fn is_row_of(rows: &[Row], stage: u32, row: u64) -> bool
    ensures { result ≡ passes_at (λ (r : RowOf). eqb r.stage stage) row rows.now }
{
    let place = row as usize;
    if place < rows.len() {
        rows[place].stage == stage
    } else {
        false
    }
}

/// Whether there is a column of that number, and it is of the stage.
pub fn is_column_of(columns: &[Column], stage: u32, column: u64) -> bool
    ensures { result ≡ passes_at (λ (c : ColumnOf). eqb c.stage stage) column columns.now }
{
    let place = column as usize;
    if place < columns.len() {
        columns[place].stage == stage
    } else {
        false
    }
}

fn fits_at(program: &Program, of_rows: bool, value: &Value) -> bool
    ensures { result ≡ fits_at (content program.now) of_rows value.now }
{
    match find(&program.nodes, value.node as u64) {
        None => false,
        Some(node) => {
            if of_rows {
                is_row_of(&program.rows, node.stage, value.index as u64)
            } else {
                is_column_of(&program.columns, node.stage, value.index as u64)
            }
        }
    }
}

fn all_fit(program: &Program, of_rows: bool, values: &[Value]) -> bool
    ensures { result ≡ all_fit (content program.now) of_rows values.now }
{
    for value in values {
        if !fits_at(program, of_rows, value) {
            return false;
        }
    }
    true
}

/// Whether each value is at a live node, and its index that of a row of the node's stage, or of a column.
pub fn fits(program: &Program, values: &Values, of_rows: bool) -> bool
    ensures { result ≡ all_fit (content program.now) of_rows values.now }
{
    all_fit(program, of_rows, values.items())
}
