//! The tables of the page.
use crate::cells::{put_amount, put_cell, put_count_cell, put_name_cell};
use crate::conflict::{is_column_marked, is_row_marked};
use crate::escape::{put, put_name};
use frac128::Memory;
use report_table::{ExpectedCost, Table, expected_cost, put_count, row_price, shared_text};
use report_values::{Amount, ColumnCells, RowCells, are_of_ray, gap};
use scen_defs::{Node, Scenario};
use std::alloc::Global;

/// What the expected cost is called.
const EXPECTED: &'static str = "expected cost";

/// What tells a node in a table.
const SPOT: [&'static str; 4] = ["node", "period", "scenarios", "probability"];

/// Appends the beginning of a table.
fn open_heads(out: &mut Vec<u8>) -> Result<(), Memory> {
    put(out, "<div class=grid tabindex=0><table><thead><tr>")
}

/// Appends what is called so in the head of a table: its cells sort the table.
fn put_head(out: &mut Vec<u8>, head: &str) -> Result<(), Memory> {
    put(out, "<th scope=col><button type=button>")?;
    put(out, head)?;
    put(out, "</button>")
}

/// Appends several of these.
fn put_heads(out: &mut Vec<u8>, heads: &[&str]) -> Result<(), Memory> {
    for head in heads {
        put_head(out, head)?;
    }
    Ok(())
}

/// Appends those of columns; that of their direction only where the report has one.
fn put_column_heads(out: &mut Vec<u8>, table: &Table<'_>) -> Result<(), Memory> {
    put_heads(out, &["column", "value"])?;
    if table.report.direction.is_some() {
        put_head(out, "direction")?;
    }
    put_heads(out, &["lower", "upper", "reduced cost"])
}

/// Appends the end of the head of a table.
fn close_heads(out: &mut Vec<u8>) -> Result<(), Memory> {
    put(out, "</tr></thead><tbody>\n")
}

/// Appends the end of a table.
fn close_table(out: &mut Vec<u8>) -> Result<(), Memory> {
    put(out, "</tbody></table></div>\n")
}

/// Appends an end of the report.
fn put_end(alloc: Global, out: &mut Vec<u8>, word: &str, amount: Amount) -> Result<(), Memory> {
    put(out, "<div><dt>")?;
    put(out, word)?;
    put(out, "<dd>")?;
    put_amount(alloc, out, amount, "none")?;
    put(out, "</div>")
}

/// Appends how many there are of something.
fn put_number(alloc: Global, out: &mut Vec<u8>, word: &str, count: u32) -> Result<(), Memory> {
    put(out, "<div><dt>")?;
    put(out, word)?;
    put(out, "<dd>")?;
    put_count(alloc, out, u64::from(count))?;
    put(out, "</div>")
}

/// Appends both ends, and how far they lie apart.
fn put_both_ends(alloc: Global, out: &mut Vec<u8>, table: &Table<'_>) -> Result<(), Memory> {
    let report = table.report;
    put_end(alloc, out, "lower end", Amount::of_end(report.lower))?;
    put_end(alloc, out, "upper end", Amount::of_end(report.upper))?;
    put_end(alloc, out, "gap", gap(report))
}

/// Appends the expected cost, as far as the ends say it, and the ends where they aren't one number.
fn put_cost(alloc: Global, out: &mut Vec<u8>, table: &Table<'_>) -> Result<(), Memory> {
    match expected_cost(table.report) {
        ExpectedCost::Known(cost) => put_end(alloc, out, EXPECTED, Amount::Known(cost)),
        ExpectedCost::Shared(decimal) => {
            put(
                out,
                "<div><dt>expected cost, the digits that both ends share<dd>",
            )?;
            out.extend_from_slice(&shared_text(alloc, decimal)?)?;
            put(out, "</div>")?;
            put_both_ends(alloc, out, table)
        }
        ExpectedCost::Apart => put_both_ends(alloc, out, table),
    }
}

/// Appends the cost or the ends of the report, and its counts.
pub(crate) fn put_ends(alloc: Global, out: &mut Vec<u8>, table: &Table<'_>) -> Result<(), Memory> {
    let report = table.report;
    put(out, "<dl>")?;
    put_cost(alloc, out, table)?;
    if report.extra.is_some() {
        let word = if report.ray.is_some() {
            "ray worth"
        } else {
            "slope"
        };
        put_end(alloc, out, word, Amount::of_end(report.extra))?;
    }
    put_number(alloc, out, "nodes", report.nodes)?;
    put_number(alloc, out, "scenarios", report.scenarios)?;
    put(out, "</dl>\n")
}

/// Appends the beginning of a line, which is marked where it is part of a conflict.
fn open_line(out: &mut Vec<u8>, is_marked: bool) -> Result<(), Memory> {
    put(out, if is_marked { "<tr class=mark>" } else { "<tr>" })
}

/// Appends the line of a column, after what tells the node.
fn put_column(
    alloc: Global,
    out: &mut Vec<u8>,
    table: &Table<'_>,
    cells: &ColumnCells,
) -> Result<(), Memory> {
    put_name_cell(alloc, out, table.column_name(cells.column))?;
    put_cell(alloc, out, cells.value, "-")?;
    if table.report.direction.is_some() {
        put_cell(alloc, out, cells.direction, "-")?;
    }
    put_cell(alloc, out, cells.lower, "none")?;
    put_cell(alloc, out, cells.upper, "none")?;
    put_cell(alloc, out, cells.reduced, "-")?;
    put(out, "</tr>\n")
}

/// Appends the first decisions.
pub(crate) fn put_first(alloc: Global, out: &mut Vec<u8>, table: &Table<'_>) -> Result<(), Memory> {
    open_heads(out)?;
    put_column_heads(out, table)?;
    close_heads(out)?;
    let columns = table.columns(alloc, 0)?;
    for cells in &columns {
        open_line(out, is_column_marked(table, cells))?;
        put_column(alloc, out, table, cells)?;
    }
    close_table(out)
}

/// Appends the line of a scenario.
fn put_scenario(
    alloc: Global,
    out: &mut Vec<u8>,
    scenario: &Scenario,
    cost: Amount,
) -> Result<(), Memory> {
    put(out, "<tr>")?;
    put_name_cell(alloc, out, scenario.name.as_bytes())?;
    put_cell(alloc, out, Amount::Known(scenario.probability), "-")?;
    put_cell(alloc, out, cost, "-")?;
    put(out, "<td>")?;
    for node in &scenario.path {
        put_count(alloc, out, u64::from(*node))?;
        put(out, " ")?;
    }
    put(out, "</tr>\n")
}

/// Appends the scenarios.
pub(crate) fn put_scenarios(
    alloc: Global,
    out: &mut Vec<u8>,
    table: &Table<'_>,
) -> Result<(), Memory> {
    open_heads(out)?;
    put_heads(out, &["scenario", "probability", "cost", "nodes"])?;
    close_heads(out)?;
    for (place, scenario) in table.program.scenarios.iter().enumerate() {
        put_scenario(alloc, out, scenario, table.values.cost(place))?;
    }
    close_table(out)
}

/// Appends the cells that tell a node.
fn put_spot(
    alloc: Global,
    out: &mut Vec<u8>,
    table: &Table<'_>,
    number: u32,
    node: &Node,
    is_marked: bool,
) -> Result<(), Memory> {
    open_line(out, is_marked)?;
    put_count_cell(alloc, out, number)?;
    put_name_cell(alloc, out, table.period_name(node.stage))?;
    put_count_cell(alloc, out, table.values.scenarios(number))?;
    put_cell(alloc, out, table.values.probability(number), "-")
}

/// Appends the columns of all nodes.
pub(crate) fn put_columns(
    alloc: Global,
    out: &mut Vec<u8>,
    table: &Table<'_>,
) -> Result<(), Memory> {
    open_heads(out)?;
    put_heads(out, &SPOT)?;
    put_column_heads(out, table)?;
    close_heads(out)?;
    let mut number: u32 = 0;
    for slot in &table.program.nodes {
        if let Some(node) = slot {
            put_columns_at(alloc, out, table, number, node)?;
        }
        number = number.saturating_add(1);
    }
    close_table(out)
}

/// Appends the columns of a node.
fn put_columns_at(
    alloc: Global,
    out: &mut Vec<u8>,
    table: &Table<'_>,
    number: u32,
    node: &Node,
) -> Result<(), Memory> {
    let columns = table.columns(alloc, number)?;
    for cells in &columns {
        let is_marked = is_column_marked(table, cells);
        put_spot(alloc, out, table, number, node, is_marked)?;
        put_column(alloc, out, table, cells)?;
    }
    Ok(())
}

/// Appends the line of a row, after what tells the node.
fn put_row(
    alloc: Global,
    out: &mut Vec<u8>,
    table: &Table<'_>,
    number: u32,
    cells: &RowCells,
) -> Result<(), Memory> {
    put_name_cell(alloc, out, table.row_name(cells.row))?;
    put_cell(alloc, out, cells.activity, "-")?;
    put_cell(alloc, out, cells.low, "none")?;
    put_cell(alloc, out, cells.high, "none")?;
    put_cell(alloc, out, cells.slack, "-")?;
    put_cell(alloc, out, cells.multiplier, "-")?;
    if !are_of_ray(table.report) {
        put_cell(alloc, out, row_price(table, number, cells.multiplier), "-")?;
    }
    put(out, "</tr>\n")
}

/// Appends the rows of a node.
fn put_rows_at(
    alloc: Global,
    out: &mut Vec<u8>,
    table: &Table<'_>,
    number: u32,
    node: &Node,
) -> Result<(), Memory> {
    let rows = table.rows(alloc, number)?;
    for cells in &rows {
        let is_marked = is_row_marked(table, cells);
        put_spot(alloc, out, table, number, node, is_marked)?;
        put_row(alloc, out, table, number, cells)?;
    }
    Ok(())
}

/// Appends what the columns of multipliers and prices are called.
fn put_multiplier_heads(out: &mut Vec<u8>, table: &Table<'_>) -> Result<(), Memory> {
    if are_of_ray(table.report) {
        put_head(out, "ray")
    } else {
        put_heads(out, &["multiplier", "price"])
    }
}

/// Appends the rows of all nodes.
pub(crate) fn put_rows(alloc: Global, out: &mut Vec<u8>, table: &Table<'_>) -> Result<(), Memory> {
    open_heads(out)?;
    put_heads(out, &SPOT)?;
    put_heads(out, &["row", "activity", "low", "high", "slack"])?;
    put_multiplier_heads(out, table)?;
    close_heads(out)?;
    let mut number: u32 = 0;
    for slot in &table.program.nodes {
        if let Some(node) = slot {
            put_rows_at(alloc, out, table, number, node)?;
        }
        number = number.saturating_add(1);
    }
    close_table(out)
}

/// Appends the name of the first period.
pub(crate) fn put_first_period(
    alloc: Global,
    out: &mut Vec<u8>,
    table: &Table<'_>,
) -> Result<(), Memory> {
    put_name(alloc, out, table.period_name(0))
}
