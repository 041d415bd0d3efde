//! Which rows and bounds no decisions keep together, by a ray.
use crate::cells::put_amount;
use crate::escape::{put, put_name};
use frac128::{Frac, Memory};
use report_table::{Table, put_count};
use report_values::{Amount, ColumnCells, RowCells, are_of_ray};
use scen_defs::Node;
use std::alloc::Global;

/// So many rows and bounds are named at most.
const MOST: u32 = 12;

/// The number, where it is known and isn't 0.
fn counts(amount: Amount) -> Option<Frac> {
    let number = amount.known()?;
    if number.is_zero() { None } else { Some(number) }
}

/// Whether a row is among those that conflict.
pub(crate) fn is_row_marked(table: &Table<'_>, cells: &RowCells) -> bool {
    are_of_ray(table.report) && counts(cells.multiplier).is_some()
}

/// Whether a bound of a column is among those that conflict.
pub(crate) fn is_column_marked(table: &Table<'_>, cells: &ColumnCells) -> bool {
    are_of_ray(table.report) && counts(cells.reduced).is_some()
}

/// An end of a row or a bound of a column that conflicts with others.
#[derive(Clone, Copy)]
struct Limit<'a> {
    is_row: bool,
    name: &'a [u8],
    is_least: bool,
    number: &'a Amount,
}

/// Appends a limit at a node.
fn put_limit(
    alloc: Global,
    out: &mut Vec<u8>,
    table: &Table<'_>,
    place: (u32, &Node),
    limit: &Limit<'_>,
) -> Result<(), Memory> {
    put(
        out,
        if limit.is_row {
            "<li>row <b>"
        } else {
            "<li>column <b>"
        },
    )?;
    put_name(alloc, out, limit.name)?;
    put(out, "</b> at node ")?;
    put_count(alloc, out, u64::from(place.0))?;
    put(out, ", period ")?;
    put_name(alloc, out, table.period_name(place.1.stage))?;
    put(
        out,
        if limit.is_least {
            ": at least "
        } else {
            ": at most "
        },
    )?;
    put_amount(alloc, out, *limit.number, "-")?;
    put(out, "</li>\n")
}

/// Appends the limits of a node that conflict, up to the most; counts them.
fn put_limits_at(
    alloc: Global,
    out: &mut Vec<u8>,
    table: &Table<'_>,
    place: (u32, &Node),
    count: &mut u32,
) -> Result<(), Memory> {
    let rows = table.rows(alloc, place.0)?;
    for cells in &rows {
        if let Some(multiplier) = counts(cells.multiplier) {
            let is_least = multiplier > Frac::zero();
            let limit = Limit {
                is_row: true,
                name: table.row_name(cells.row),
                is_least,
                number: if is_least { &cells.low } else { &cells.high },
            };
            put_next(alloc, out, table, place, &limit, count)?;
        }
    }
    let columns = table.columns(alloc, place.0)?;
    for cells in &columns {
        if let Some(reduced) = counts(cells.reduced) {
            let is_least = reduced > Frac::zero();
            let limit = Limit {
                is_row: false,
                name: table.column_name(cells.column),
                is_least,
                number: if is_least { &cells.lower } else { &cells.upper },
            };
            put_next(alloc, out, table, place, &limit, count)?;
        }
    }
    Ok(())
}

/// Appends a limit unless the most are there; counts it.
fn put_next(
    alloc: Global,
    out: &mut Vec<u8>,
    table: &Table<'_>,
    place: (u32, &Node),
    limit: &Limit<'_>,
    count: &mut u32,
) -> Result<(), Memory> {
    if *count < MOST {
        put_limit(alloc, out, table, place, limit)?;
    }
    *count = (*count).saturating_add(1);
    Ok(())
}

/// Appends how many more there are.
fn put_more(alloc: Global, out: &mut Vec<u8>, count: u32) -> Result<(), Memory> {
    if count <= MOST {
        return Ok(());
    }
    put(out, "<p>and ")?;
    put_count(alloc, out, u64::from(count.saturating_sub(MOST)))?;
    put(out, " more, which are marked in the tables below.</p>\n")
}

/// Appends what no decisions keep together, where the report has a ray.
pub(crate) fn put_conflict(
    alloc: Global,
    out: &mut Vec<u8>,
    table: &Table<'_>,
) -> Result<(), Memory> {
    if !are_of_ray(table.report) {
        return Ok(());
    }
    put(out, "<p>These conflict:</p>\n<ul class=conflict>\n")?;
    let mut count: u32 = 0;
    let mut number: u32 = 0;
    for slot in &table.program.nodes {
        if let Some(node) = slot {
            put_limits_at(alloc, out, table, (number, node), &mut count)?;
        }
        number = number.saturating_add(1);
    }
    put(out, "</ul>\n")?;
    put_more(alloc, out, count)
}
