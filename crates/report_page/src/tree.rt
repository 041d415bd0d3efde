//! The tree, drawn.
use crate::cells::put_decimal;
use crate::escape::{put, put_short_name};
use crate::layout::{Band, bands};
use frac128::Memory;
use report_table::{Table, decimal_text, put_count, short_name};
use report_values::Amount;
use scen_defs::{Node, Scenario};
use std::alloc::Global;

/// A larger tree is drawn by period.
const MOST: usize = 200;

/// So many first decisions are named in the drawing.
const MOST_NAMED: usize = 8;

/// A name in the drawing takes at most so many columns of a terminal.
const MOST_OF_NAME: usize = 18;

/// A tree of more scenarios than fit on a page is printed by period.
const MOST_PRINTED: usize = 16;

/// So wide is a character of the drawing at most, as far as the space beside the root goes.
const CHARACTER: u64 = 8;

/// The distance of two periods, of two scenarios, and the space on the right side and above.
const ACROSS: u64 = 170;

const DOWN: u64 = 36;

const RIGHT: u64 = 320;

const TOP: u64 = 40;

/// Where a node of a stage stands from the left, given where the root does.
fn across(left: u64, stage: u32) -> u64 {
    left.saturating_add(u64::from(stage).saturating_mul(ACROSS))
}

/// Where a band has its middle, from above.
fn middle(band: Band) -> u64 {
    let twice = band.first.saturating_mul(2).saturating_add(band.lines);
    (twice.saturating_mul(DOWN) / 2).saturating_add(TOP)
}

/// Appends an attribute that is a whole number.
fn put_at(alloc: Global, out: &mut Vec<u8>, name: &str, number: u64) -> Result<(), Memory> {
    put(out, " ")?;
    put(out, name)?;
    put(out, "=\"")?;
    put_count(alloc, out, number)?;
    put(out, "\"")
}

/// Appends the beginning of a text at a place.
fn open_text(alloc: Global, out: &mut Vec<u8>, x: u64, y: u64) -> Result<(), Memory> {
    put(out, "<text")?;
    put_at(alloc, out, "x", x)?;
    put_at(alloc, out, "y", y)?;
    put(out, ">")
}

/// Appends the line from a node's parent to it.
fn put_edge(
    alloc: Global,
    out: &mut Vec<u8>,
    from: (u64, u64),
    to: (u64, u64),
) -> Result<(), Memory> {
    put(out, "<line")?;
    put_at(alloc, out, "x1", from.0)?;
    put_at(alloc, out, "y1", from.1)?;
    put_at(alloc, out, "x2", to.0)?;
    put_at(alloc, out, "y2", to.1)?;
    put(out, "/>")
}

/// Appends the line above a node, where it has one.
fn put_edge_of(
    alloc: Global,
    out: &mut Vec<u8>,
    left: u64,
    bands: &[Band],
    node: &Node,
    band: Band,
) -> Result<(), Memory> {
    let Some(parent) = node.parent else {
        return Ok(());
    };
    let Some(above) = bands.get(parent as usize) else {
        return Ok(());
    };
    let from = (across(left, node.stage.saturating_sub(1)), middle(*above));
    put_edge(alloc, out, from, (across(left, node.stage), middle(band)))
}

/// Appends a node: a circle with its number, and its probability above.
fn put_point(
    alloc: Global,
    out: &mut Vec<u8>,
    table: &Table<'_>,
    number: u32,
    x: u64,
    y: u64,
) -> Result<(), Memory> {
    put(out, "<circle")?;
    put_at(alloc, out, "cx", x)?;
    put_at(alloc, out, "cy", y)?;
    put(out, " r=\"11\"/>")?;
    open_text_of(alloc, out, "mid", x, y.saturating_add(4))?;
    put_count(alloc, out, u64::from(number))?;
    put(out, "</text>")?;
    open_text_of(alloc, out, "mid", x, y.saturating_sub(14))?;
    put_decimal(alloc, out, table.values.probability(number))?;
    put(out, "</text>\n")
}

/// Appends all lines, then all points.
fn put_points(
    alloc: Global,
    out: &mut Vec<u8>,
    table: &Table<'_>,
    left: u64,
    bands: &[Band],
) -> Result<(), Memory> {
    for (slot, band) in table.program.nodes.iter().zip(bands) {
        if let Some(node) = slot {
            put_edge_of(alloc, out, left, bands, node, *band)?;
        }
    }
    let mut number: u32 = 0;
    for (slot, band) in table.program.nodes.iter().zip(bands) {
        if let Some(node) = slot {
            let x = across(left, node.stage);
            put_point(alloc, out, table, number, x, middle(*band))?;
        }
        number = number.saturating_add(1);
    }
    Ok(())
}

/// Appends the beginning of a text that has its end or its middle at a place.
fn open_text_of(
    alloc: Global,
    out: &mut Vec<u8>,
    class: &str,
    x: u64,
    y: u64,
) -> Result<(), Memory> {
    put(out, "<text class=")?;
    put(out, class)?;
    put_at(alloc, out, "x", x)?;
    put_at(alloc, out, "y", y)?;
    put(out, ">")
}

/// Appends the first decisions beside the root.
fn put_first(
    alloc: Global,
    out: &mut Vec<u8>,
    table: &Table<'_>,
    left: u64,
    y: u64,
) -> Result<(), Memory> {
    let columns = table.columns(alloc, 0)?;
    let end = left.saturating_sub(18);
    let mut line = y.saturating_add(4);
    for (place, cells) in columns.iter().enumerate() {
        open_text_of(alloc, out, "end", end, line)?;
        if place >= MOST_NAMED {
            return put(out, "and more</text>\n");
        }
        put_short_name(alloc, out, table.column_name(cells.column), MOST_OF_NAME)?;
        put(out, " = ")?;
        put_decimal(alloc, out, cells.value)?;
        put(out, "</text>\n")?;
        line = line.saturating_add(16);
    }
    Ok(())
}

/// Appends the name of a scenario and its cost beside its last node.
fn put_leaf(
    alloc: Global,
    out: &mut Vec<u8>,
    scenario: &Scenario,
    cost: Amount,
    x: u64,
    y: u64,
) -> Result<(), Memory> {
    open_text(alloc, out, x.saturating_add(18), y.saturating_add(4))?;
    put_short_name(alloc, out, scenario.name.as_bytes(), MOST_OF_NAME)?;
    put(out, ": cost ")?;
    put_decimal(alloc, out, cost)?;
    put(out, "</text>\n")
}

/// The last node of a scenario.
fn last_node(scenario: &Scenario) -> u32 {
    match scenario.path.as_slice() {
        [.., last] => *last,
        [] => 0,
    }
}

/// Appends the scenarios beside their last nodes.
fn put_leaves(
    alloc: Global,
    out: &mut Vec<u8>,
    table: &Table<'_>,
    left: u64,
    bands: &[Band],
) -> Result<(), Memory> {
    let x = across(left, (table.program.periods.len() as u32).saturating_sub(1));
    for (place, scenario) in table.program.scenarios.iter().enumerate() {
        if let Some(band) = bands.get(last_node(scenario) as usize) {
            let cost = table.values.cost(place);
            put_leaf(alloc, out, scenario, cost, x, middle(*band))?;
        }
    }
    Ok(())
}

/// Appends the names of the periods above their nodes.
fn put_periods(
    alloc: Global,
    out: &mut Vec<u8>,
    table: &Table<'_>,
    left: u64,
) -> Result<(), Memory> {
    let mut stage: u32 = 0;
    for name in &table.program.periods {
        open_text(alloc, out, across(left, stage).saturating_sub(11), 14)?;
        put_short_name(alloc, out, name.as_bytes(), MOST_OF_NAME)?;
        put(out, "</text>\n")?;
        stage = stage.saturating_add(1);
    }
    Ok(())
}

/// Appends the beginning of a drawing.
pub(crate) fn open_drawing(
    alloc: Global,
    out: &mut Vec<u8>,
    label: &str,
    width: u64,
    height: u64,
) -> Result<(), Memory> {
    put(
        out,
        "<div class=wide tabindex=0><svg role=img aria-label=\"",
    )?;
    put(out, label)?;
    put(out, "\"")?;
    put_at(alloc, out, "width", width)?;
    put_at(alloc, out, "height", height)?;
    put(out, " viewBox=\"0 0 ")?;
    put_count(alloc, out, width)?;
    put(out, " ")?;
    put_count(alloc, out, height)?;
    put(out, "\">\n")
}

/// How many characters a decision takes beside the root.
fn label_length(alloc: Global, name: &[u8], value: Amount) -> Result<usize, Memory> {
    let shown = short_name(alloc, name, MOST_OF_NAME)?
        .len()
        .min(MOST_OF_NAME);
    let number = match value {
        Amount::Known(value) => decimal_text(alloc, value)?.len(),
        Amount::Absent | Amount::Passed => 6,
    };
    Ok(shown.saturating_add(number).saturating_add(3))
}

/// Where the root stands from the left: the first decisions have room beside it.
fn root_place(alloc: Global, table: &Table<'_>) -> Result<u64, Memory> {
    let columns = table.columns(alloc, 0)?;
    let mut most: usize = 0;
    for cells in columns.iter().take(MOST_NAMED) {
        let name = table.column_name(cells.column);
        most = most.max(label_length(alloc, name, cells.value)?);
    }
    Ok((most as u64).saturating_mul(CHARACTER).saturating_add(30))
}

/// How high a drawing of so many scenarios is, with room for the first decisions beside and below the root, which stands half way.
fn tree_height(scenarios: u64, named: u64) -> u64 {
    let lines = scenarios.saturating_mul(DOWN);
    let sides = lines / 2;
    let below = sides.max(named.saturating_mul(16).saturating_add(10));
    TOP.saturating_add(sides)
        .saturating_add(below)
        .saturating_add(20)
}

/// Appends the drawing of a tree that isn't large: nodes with their probabilities, the first decisions, and the scenarios with their costs.
fn put_small(alloc: Global, out: &mut Vec<u8>, table: &Table<'_>) -> Result<(), Memory> {
    let bands = bands(alloc, table)?;
    let periods = table.program.periods.len() as u64;
    let left = root_place(alloc, table)?;
    let width = left
        .saturating_add(RIGHT)
        .saturating_add(periods.saturating_sub(1).saturating_mul(ACROSS));
    let named = table.columns(alloc, 0)?.len().min(MOST_NAMED) as u64;
    let height = tree_height(table.program.scenarios.len() as u64, named);
    open_drawing(alloc, out, "the tree", width, height)?;
    put_periods(alloc, out, table, left)?;
    put_points(alloc, out, table, left, &bands)?;
    let root = match bands.get(0) {
        Some(band) => middle(*band),
        None => 0,
    };
    put_first(alloc, out, table, left, root)?;
    put_leaves(alloc, out, table, left, &bands)?;
    put(out, "</svg></div>\n")
}

/// How many nodes stand at a stage.
fn nodes_at(table: &Table<'_>, stage: u32) -> u64 {
    let mut count: u64 = 0;
    for slot in &table.program.nodes {
        if let Some(node) = slot {
            if node.stage == stage {
                count = count.saturating_add(1);
            }
        }
    }
    count
}

/// Appends the box of a period.
fn put_box(alloc: Global, out: &mut Vec<u8>, table: &Table<'_>, stage: u32) -> Result<(), Memory> {
    let x = 10u64.saturating_add(u64::from(stage).saturating_mul(ACROSS));
    put(out, "<rect")?;
    put_at(alloc, out, "x", x)?;
    put_at(alloc, out, "y", 10)?;
    put_at(alloc, out, "width", 140)?;
    put_at(alloc, out, "height", 56)?;
    put(out, "/>")?;
    open_text(alloc, out, x.saturating_add(10), 32)?;
    put_short_name(alloc, out, table.period_name(stage), MOST_OF_NAME)?;
    put(out, "</text>")?;
    open_text(alloc, out, x.saturating_add(10), 54)?;
    put_count(alloc, out, nodes_at(table, stage))?;
    put(out, " nodes</text>")?;
    if stage > 0 {
        put_edge(alloc, out, (x.saturating_sub(30), 38), (x, 38))?;
    }
    put(out, "\n")
}

/// Appends the drawing of a large tree: how many nodes each period has.
fn put_large(alloc: Global, out: &mut Vec<u8>, table: &Table<'_>) -> Result<(), Memory> {
    let periods = table.program.periods.len() as u64;
    let width = periods.saturating_mul(ACROSS).saturating_add(10);
    open_drawing(alloc, out, "the tree, by period", width, 80)?;
    let mut stage: u32 = 0;
    for _period in &table.program.periods {
        put_box(alloc, out, table, stage)?;
        stage = stage.saturating_add(1);
    }
    put(out, "</svg></div>\n")
}

/// Whether a tree is drawn by period.
pub(crate) fn is_large(table: &Table<'_>) -> bool {
    table.program.nodes.len() > MOST
}

/// Appends the drawing of the tree, on paper by period where that of the screen fits on no page.
pub(crate) fn put_tree(alloc: Global, out: &mut Vec<u8>, table: &Table<'_>) -> Result<(), Memory> {
    if is_large(table) {
        return put_large(alloc, out, table);
    }
    if table.program.scenarios.len() <= MOST_PRINTED {
        return put_small(alloc, out, table);
    }
    put(out, "<div class=screen>")?;
    put_small(alloc, out, table)?;
    put(out, "</div><div class=print>")?;
    put_large(alloc, out, table)?;
    put(out, "</div>\n")
}
