//! The page.
use crate::conflict::put_conflict;
use crate::costs::put_costs;
use crate::escape::{put, put_escaped};
use crate::frame::{BODY, HEAD, TAIL};
use crate::tables::{put_columns, put_ends, put_first, put_first_period, put_rows, put_scenarios};
use crate::tree::{is_large, put_tree};
use crate::worth::put_worth;
use frac128::Memory;
use report_table::{Table, finding_word, print_finding, put_count};
use std::alloc::Global;

/// Appends the number of the report, and its finding.
fn put_name_of(alloc: Global, out: &mut Vec<u8>, table: &Table<'_>) -> Result<(), Memory> {
    put_count(alloc, out, u64::from(table.report.number))?;
    put(out, ": ")?;
    put(out, finding_word(table.report.finding))
}

/// Appends what stands on top.
fn put_top(alloc: Global, out: &mut Vec<u8>, table: &Table<'_>) -> Result<(), Memory> {
    let mut words = Vec::new(alloc);
    print_finding(alloc, &mut words, table.report.finding)?;
    put(out, HEAD)?;
    put_name_of(alloc, out, table)?;
    put(out, BODY)?;
    put(out, "<h1>Report ")?;
    put_name_of(alloc, out, table)?;
    put(out, "</h1>\n<p>")?;
    put_escaped(out, &words)?;
    put(out, "</p>\n")?;
    put_conflict(alloc, out, table)?;
    put_ends(alloc, out, table)
}

/// Appends the first decisions, the tree, what information and the model are worth, and the scenarios.
fn put_overview(alloc: Global, out: &mut Vec<u8>, table: &Table<'_>) -> Result<(), Memory> {
    put(out, "<h2>First decisions, period ")?;
    put_first_period(alloc, out, table)?;
    put(out, "</h2>\n")?;
    put_first(alloc, out, table)?;
    put(out, "<h2>The tree</h2>\n")?;
    put_tree(alloc, out, table)?;
    put_worth(alloc, out, table)?;
    put(out, "<h2>Costs by scenario</h2>\n")?;
    put_costs(alloc, out, table)
}

/// Said in print in place of long tables.
const LEFT_OUT: &'static str =
    "<p class=print>Of more than 200 nodes the print has the periods and the first decisions.
The screen has all of them, and so has --form csv.</p>
";

/// Appends the tables of all scenarios, columns and rows. Those of a large tree aren't printed.
fn put_all(alloc: Global, out: &mut Vec<u8>, table: &Table<'_>) -> Result<(), Memory> {
    if is_large(table) {
        put(out, LEFT_OUT)?;
        put(out, "<section class=screen>\n")?;
    } else {
        put(out, "<section>\n")?;
    }
    put_scenarios(alloc, out, table)?;
    put(out, "<h2>Columns at all nodes</h2>\n")?;
    put_columns(alloc, out, table)?;
    put(out, "<h2>Rows at all nodes</h2>\n")?;
    put_rows(alloc, out, table)?;
    put(out, "</section>\n")
}

/// The page of a table.
pub fn print_page(alloc: Global, table: &Table<'_>) -> Result<Vec<u8>, Memory> {
    let mut out = Vec::new(alloc);
    put_top(alloc, &mut out, table)?;
    put_overview(alloc, &mut out, table)?;
    put_all(alloc, &mut out, table)?;
    put(&mut out, TAIL)?;
    Ok(out)
}
