//! The costs of scenarios, drawn: how likely a cost of at most so much is.
use crate::cells::{put_amount, put_decimal};
use crate::escape::put;
use crate::scale::{between, parts};
use crate::tree::open_drawing;
use frac128::{Frac, Memory};
use report_table::{CostStep, Table, cost_lines, cost_steps, put_count};
use report_values::Amount;
use std::alloc::Global;

/// The place of the drawing's area, and its size.
const LEFT: u64 = 60;

const TOP: u64 = 20;

const WIDTH: u64 = 600;

const HEIGHT: u64 = 200;

/// How far from the left parts of the width are.
fn across(share: u64) -> u64 {
    LEFT.saturating_add(share.saturating_mul(WIDTH) / 10_000)
}

/// How far from above a probability is.
fn down(share: u64) -> u64 {
    let up = share.saturating_mul(HEIGHT) / 10_000;
    TOP.saturating_add(HEIGHT.saturating_sub(up))
}

/// Appends a command of a path with a number.
fn put_move(alloc: Global, out: &mut Vec<u8>, word: &str, number: u64) -> Result<(), Memory> {
    put(out, word)?;
    put_count(alloc, out, number)
}

/// Appends the path: at each cost it rises by its probability.
fn put_path(
    alloc: Global,
    out: &mut Vec<u8>,
    steps: &[CostStep],
    least: &Amount,
    most: &Amount,
) -> Result<(), Memory> {
    let mut sum = Amount::Known(Frac::zero());
    put(out, "<path d=\"")?;
    put_move(alloc, out, "M", LEFT)?;
    put_move(alloc, out, ",", down(0))?;
    for step in steps {
        sum = sum.plus(&Amount::Known(step.probability));
        let share = match sum {
            Amount::Known(value) => parts(value),
            Amount::Absent | Amount::Passed => 10_000,
        };
        let x = across(between(&Amount::Known(step.cost), least, most));
        put_move(alloc, out, "H", x)?;
        put_move(alloc, out, "V", down(share))?;
    }
    put_move(alloc, out, "H", across(10_000))?;
    put(out, "\"/>\n")
}

/// Appends a text at a place.
fn put_text(
    alloc: Global,
    out: &mut Vec<u8>,
    x: u64,
    y: u64,
    amount: Amount,
) -> Result<(), Memory> {
    put_move(alloc, out, "<text x=\"", x)?;
    put_move(alloc, out, "\" y=\"", y)?;
    put(out, "\">")?;
    put_decimal(alloc, out, amount)?;
    put(out, "</text>\n")
}

/// Appends the axes, with the least and the greatest cost.
fn put_axes(alloc: Global, out: &mut Vec<u8>, least: &Amount, most: &Amount) -> Result<(), Memory> {
    let below = down(0).saturating_add(18);
    put_move(alloc, out, "<path class=axis d=\"M", LEFT)?;
    put_move(alloc, out, ",", TOP)?;
    put_move(alloc, out, "V", down(0))?;
    put_move(alloc, out, "H", across(10_000))?;
    put(out, "\"/>\n")?;
    put_text(alloc, out, LEFT, below, *least)?;
    put_text(alloc, out, across(10_000).saturating_sub(20), below, *most)?;
    put_text(alloc, out, 30, down(0), Amount::Known(Frac::zero()))?;
    put_text(
        alloc,
        out,
        30,
        TOP.saturating_add(8),
        Amount::Known(Frac::one()),
    )
}

/// Appends the drawing of some costs.
fn put_steps(
    alloc: Global,
    out: &mut Vec<u8>,
    steps: &[CostStep],
    least: Frac,
    most: Frac,
) -> Result<(), Memory> {
    let least = Amount::Known(least);
    let most = Amount::Known(most);
    open_drawing(
        alloc,
        out,
        "how likely a cost of at most so much is",
        800,
        260,
    )?;
    put_axes(alloc, out, &least, &most)?;
    put_path(alloc, out, steps, &least, &most)?;
    put(out, "</svg></div>\n")
}

/// Appends what the costs come to: their mean, and what they don't pass with a given probability.
fn put_spread(alloc: Global, out: &mut Vec<u8>, table: &Table<'_>) -> Result<(), Memory> {
    put(out, "<dl>")?;
    let steps = cost_steps(alloc, table)?;
    for line in &cost_lines(table, &steps) {
        put(out, "<div><dt title=\"")?;
        put(out, line.words)?;
        put(out, "\">")?;
        put(out, line.name)?;
        put(out, "<dd>")?;
        put_amount(alloc, out, line.amount, "-")?;
        put(out, "</div>")?;
    }
    put(
        out,
        "</dl>\n<p>How likely a cost of at most so much is:</p>\n",
    )
}

/// Appends the distribution of the costs of scenarios, where all of them are known.
pub(crate) fn put_costs(alloc: Global, out: &mut Vec<u8>, table: &Table<'_>) -> Result<(), Memory> {
    let Some(steps) = cost_steps(alloc, table)? else {
        return put(out, "<p>The report has no costs of scenarios.</p>\n");
    };
    put_spread(alloc, out, table)?;
    match (steps.first(), steps.last()) {
        (Some(first), Some(last)) => put_steps(alloc, out, &steps, first.cost, last.cost),
        _ => Ok(()),
    }
}
