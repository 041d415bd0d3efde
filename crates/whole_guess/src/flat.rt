//! The deterministic equivalent of a program in a run of a kind: the columns and rows of all nodes, with costs by their probability.

use crate::layout::{Layout, path_to};
use basis_factors::Entry;
use basis_values::ExactProgram;
use frac128::{Form, Frac, Memory};
use scen_defs::{Column, Kind, Node, NodeRow, Program};
use scen_nodes::derived_bound;
use scen_tree::Tree;
use std::alloc::Global;

/// So many rows and columns together, and so many entries, are tried at most.
const MOST_LINES: usize = 300_000;

const MOST_ENTRIES: usize = 2_000_000;

/// How many rows and columns a node has, and how many entries its rows have.
fn size(layout: &Layout, node: &Node) -> (usize, usize) {
    let lines = node
        .rows
        .len()
        .saturating_add(layout.columns(node.stage).len());
    let mut entries = 0usize;
    for row in &node.rows {
        entries = entries.saturating_add(row.entries.len());
    }
    (lines, entries)
}

/// Whether a program isn't too large to be tried.
pub(crate) fn is_tried(program: &Program, layout: &Layout) -> bool {
    let (mut lines, mut entries) = (0usize, 0usize);
    for node in &program.nodes {
        if let Some(node) = node {
            let (own_lines, own_entries) = size(layout, node);
            lines = lines.saturating_add(own_lines);
            entries = entries.saturating_add(own_entries);
        }
    }
    lines <= MOST_LINES && entries <= MOST_ENTRIES
}

/// The cost of a column at a node that has this probability; none where it doesn't fit.
fn cost(kind: Kind, node: &Node, total: Frac, column: u32) -> Option<Frac> {
    match kind {
        Kind::Feasible => Some(Frac::zero()),
        Kind::Recession | Kind::Cost => node.cost.get(column as u64).mul(total).ok(),
    }
}

/// Adds a column of a node. False where its cost doesn't fit.
fn push_column(
    exact: &mut ExactProgram,
    kind: Kind,
    column: &Column,
    cost: Option<Frac>,
) -> Result<bool, Memory> {
    let Some(cost) = cost else {
        return Ok(false);
    };
    let low = derived_bound(kind, Frac::one().neg(), column.lower);
    let high = derived_bound(kind, Frac::one(), column.upper);
    exact.push_column(low, high, cost)?;
    Ok(true)
}

/// Adds the columns of a node. False where a cost doesn't fit.
pub(crate) fn push_columns(
    exact: &mut ExactProgram,
    program: &Program,
    layout: &Layout,
    kind: Kind,
    node: &Node,
    total: Frac,
) -> Result<bool, Memory> {
    for column in layout.columns(node.stage) {
        let place = *column as usize;
        if place >= program.columns.len() {
            return Ok(false);
        }
        let cost = cost(kind, node, total, *column);
        if !push_column(exact, kind, &program.columns[place], cost)? {
            return Ok(false);
        }
    }
    Ok(true)
}

/// The entries of a row of a node, over the columns of the nodes on its path.
fn entries(
    alloc: Global,
    program: &Program,
    layout: &Layout,
    path: &[u32],
    form: &Form,
) -> Result<Vec<Entry<Frac>>, Memory> {
    let mut entries = Vec::with_capacity(alloc, form.len())?;
    for term in form.terms() {
        let column = term.column.min(u32::MAX as u64) as u32;
        let place = column as usize;
        if place < program.columns.len() {
            let stage = program.columns[place].stage as usize;
            if stage < path.len() {
                entries.push(Entry {
                    at: layout.place(path[stage], column),
                    value: term.value,
                })?;
            }
        }
    }
    Ok(entries)
}

/// An end of a row in a run of a kind.
fn end(kind: Kind, end: Option<Frac>) -> Option<Frac> {
    match (kind, end) {
        (Kind::Recession, Some(_)) => Some(Frac::zero()),
        (Kind::Recession | Kind::Feasible | Kind::Cost, end) => end,
    }
}

/// Adds a row of a node.
pub(crate) fn push_row(
    alloc: Global,
    exact: &mut ExactProgram,
    program: &Program,
    layout: &Layout,
    kind: Kind,
    path: &[u32],
    row: &NodeRow,
) -> Result<(), Memory> {
    let entries = entries(alloc, program, layout, path, &row.entries)?;
    exact.push_row(entries, end(kind, row.low), end(kind, row.high))
}

/// Adds the rows of a node.
fn push_rows(
    alloc: Global,
    exact: &mut ExactProgram,
    program: &Program,
    layout: &Layout,
    kind: Kind,
    number: u32,
    node: &Node,
) -> Result<(), Memory> {
    let path = path_to(alloc, program, number)?;
    for row in &node.rows {
        push_row(alloc, exact, program, layout, kind, &path, row)?;
    }
    Ok(())
}

/// The columns of all nodes. False where a cost doesn't fit.
fn all_columns(
    exact: &mut ExactProgram,
    program: &Program,
    tree: &Tree,
    layout: &Layout,
    kind: Kind,
) -> Result<bool, Memory> {
    let mut number = 0u32;
    for node in &program.nodes {
        if let Some(node) = node {
            let total = tree.total(number);
            if !push_columns(exact, program, layout, kind, node, total)? {
                return Ok(false);
            }
        }
        number = number.saturating_add(1);
    }
    Ok(true)
}

/// The whole program in a run of a kind, in which every node has its columns and rows; none where a cost doesn't fit.
pub(crate) fn flat_program(
    alloc: Global,
    program: &Program,
    tree: &Tree,
    layout: &Layout,
    kind: Kind,
) -> Result<Option<ExactProgram>, Memory> {
    let mut exact = ExactProgram::new(alloc);
    if !all_columns(&mut exact, program, tree, layout, kind)? {
        return Ok(None);
    }
    let mut number = 0u32;
    for node in &program.nodes {
        if let Some(node) = node {
            push_rows(alloc, &mut exact, program, layout, kind, number, node)?;
        }
        number = number.saturating_add(1);
    }
    Ok(Some(exact))
}
