//! The columns and rows of a node, as aligned lines.
use crate::aligned::Lines;
use crate::amounts::{put, put_amount};
use frac128::Memory;
use report_table::{Table, row_price, short_name};
use report_values::{Amount, ColumnCells, RowCells, are_of_ray};
use std::alloc::Global;

/// A name takes at most so many columns of a terminal.
const MOST: usize = 40;

/// A cell with a text.
fn cell(alloc: Global, text: &str) -> Result<Vec<u8>, Memory> {
    Ok(Vec::from_slice(alloc, text.as_bytes())?)
}

/// A cell with a name.
pub(crate) fn name_cell(alloc: Global, name: &[u8]) -> Result<Vec<u8>, Memory> {
    Ok(short_name(alloc, name, MOST)?.into_bytes())
}

/// A cell with a number.
fn amount_cell(alloc: Global, amount: Amount, absent: &str) -> Result<Vec<u8>, Memory> {
    let mut text = Vec::new(alloc);
    put_amount(alloc, &mut text, amount, absent)?;
    Ok(text)
}

/// The cells above those of columns.
fn column_heads(alloc: Global, with_direction: bool) -> Result<Vec<Vec<u8>>, Memory> {
    let mut cells = Vec::new(alloc);
    cells.push(cell(alloc, "column")?)?;
    cells.push(cell(alloc, "value")?)?;
    if with_direction {
        cells.push(cell(alloc, "direction")?)?;
    }
    cells.push(cell(alloc, "lower")?)?;
    cells.push(cell(alloc, "upper")?)?;
    cells.push(cell(alloc, "reduced cost")?)?;
    Ok(cells)
}

/// The cells of a column.
fn column_line(
    alloc: Global,
    name: &[u8],
    cells: &ColumnCells,
    with_direction: bool,
) -> Result<Vec<Vec<u8>>, Memory> {
    let mut line = Vec::new(alloc);
    line.push(name_cell(alloc, name)?)?;
    line.push(amount_cell(alloc, cells.value, "-")?)?;
    if with_direction {
        line.push(amount_cell(alloc, cells.direction, "-")?)?;
    }
    line.push(amount_cell(alloc, cells.lower, "none")?)?;
    line.push(amount_cell(alloc, cells.upper, "none")?)?;
    line.push(amount_cell(alloc, cells.reduced, "-")?)?;
    Ok(line)
}

/// Appends the columns of a node.
pub(crate) fn put_columns(
    alloc: Global,
    out: &mut Vec<u8>,
    table: &Table<'_>,
    node: u32,
) -> Result<(), Memory> {
    let columns = table.columns(alloc, node)?;
    if columns.is_empty() {
        return put(out, "  no columns\n");
    }
    let with_direction = table.report.direction.is_some();
    let mut lines = Lines::new(alloc);
    lines.push(column_heads(alloc, with_direction)?)?;
    for cells in &columns {
        let name = table.column_name(cells.column);
        lines.push(column_line(alloc, name, cells, with_direction)?)?;
    }
    lines.print(alloc, out)
}

/// The cells above those of rows.
fn row_heads(alloc: Global, of_ray: bool) -> Result<Vec<Vec<u8>>, Memory> {
    let mut cells = Vec::new(alloc);
    cells.push(cell(alloc, "row")?)?;
    cells.push(cell(alloc, "activity")?)?;
    cells.push(cell(alloc, "low")?)?;
    cells.push(cell(alloc, "high")?)?;
    cells.push(cell(alloc, "slack")?)?;
    if of_ray {
        cells.push(cell(alloc, "ray")?)?;
    } else {
        cells.push(cell(alloc, "multiplier")?)?;
        cells.push(cell(alloc, "price")?)?;
    }
    Ok(cells)
}

/// The cells of a row at a node.
fn row_line(
    alloc: Global,
    table: &Table<'_>,
    node: u32,
    cells: &RowCells,
) -> Result<Vec<Vec<u8>>, Memory> {
    let mut line = Vec::new(alloc);
    line.push(name_cell(alloc, table.row_name(cells.row))?)?;
    line.push(amount_cell(alloc, cells.activity, "-")?)?;
    line.push(amount_cell(alloc, cells.low, "none")?)?;
    line.push(amount_cell(alloc, cells.high, "none")?)?;
    line.push(amount_cell(alloc, cells.slack, "-")?)?;
    line.push(amount_cell(alloc, cells.multiplier, "-")?)?;
    if !are_of_ray(table.report) {
        let price = row_price(table, node, cells.multiplier);
        line.push(amount_cell(alloc, price, "-")?)?;
    }
    Ok(line)
}

/// Appends the rows of a node, if it has some.
pub(crate) fn put_rows(
    alloc: Global,
    out: &mut Vec<u8>,
    table: &Table<'_>,
    node: u32,
) -> Result<(), Memory> {
    let rows = table.rows(alloc, node)?;
    if rows.is_empty() {
        return Ok(());
    }
    let mut lines = Lines::new(alloc);
    lines.push(row_heads(alloc, are_of_ray(table.report))?)?;
    for cells in &rows {
        lines.push(row_line(alloc, table, node, cells)?)?;
    }
    lines.print(alloc, out)
}
