//! A program as texts that show what `show` doesn't print.
use frac128::{Form, Frac, Memory, print};
use scen_defs::{Column, Node, NodeRow, Program, Row};
use smps_words::Name;
use std::alloc::Global;

fn push(text: &mut Vec<u8>, bytes: &[u8]) -> Result<(), Memory> {
    text.extend_from_slice(bytes)?;
    Ok(())
}

fn push_name(text: &mut Vec<u8>, before: &[u8], name: &Name) -> Result<(), Memory> {
    push(text, before)?;
    push(text, name.as_bytes())
}

fn push_number(
    alloc: Global,
    text: &mut Vec<u8>,
    before: &[u8],
    number: u64,
) -> Result<(), Memory> {
    push(text, before)?;
    push(text, format!(in alloc; "{number}")?.as_bytes())
}

fn push_end(alloc: Global, text: &mut Vec<u8>, end: Option<Frac>) -> Result<(), Memory> {
    match end {
        Some(value) => print(alloc, value, text),
        None => push(text, b"*"),
    }
}

/// Two ends, as ` [0,*]`; an absent one is a star.
fn push_ends(
    alloc: Global,
    text: &mut Vec<u8>,
    low: Option<Frac>,
    high: Option<Frac>,
) -> Result<(), Memory> {
    push(text, b" [")?;
    push_end(alloc, text, low)?;
    push(text, b",")?;
    push_end(alloc, text, high)?;
    push(text, b"]")
}

fn push_terms(alloc: Global, text: &mut Vec<u8>, before: &[u8], form: &Form) -> Result<(), Memory> {
    for term in form.terms() {
        push_number(alloc, text, before, term.column)?;
        push(text, b"=")?;
        print(alloc, term.value, text)?;
    }
    Ok(())
}

/// The name, the period and the bounds.
fn push_column(alloc: Global, text: &mut Vec<u8>, column: &Column) -> Result<(), Memory> {
    push_name(text, b"COLUMN ", &column.name)?;
    push_number(alloc, text, b" ", column.stage as u64)?;
    push_ends(alloc, text, column.lower, column.upper)?;
    push(text, b"\n")
}

/// The name, the period, the kind and the range.
fn push_row(alloc: Global, text: &mut Vec<u8>, row: &Row) -> Result<(), Memory> {
    let kind = row.kind;
    push_name(text, b"ROW ", &row.name)?;
    push_number(alloc, text, b" ", row.stage as u64)?;
    push(text, format!(in alloc; " {kind:?}")?.as_bytes())?;
    if let Some(range) = row.range {
        push(text, b" range ")?;
        print(alloc, range, text)?;
    }
    push(text, b"\n")
}

/// The number, the entries by column and the interval.
fn push_node_row(alloc: Global, text: &mut Vec<u8>, row: &NodeRow) -> Result<(), Memory> {
    push_number(alloc, text, b" r", row.row as u64)?;
    push_terms(alloc, text, b" ", &row.entries)?;
    push_ends(alloc, text, row.low, row.high)
}

/// The period, the parent, the costs by column and the rows.
fn push_node(alloc: Global, text: &mut Vec<u8>, node: &Node) -> Result<(), Memory> {
    push_number(alloc, text, b"", node.stage as u64)?;
    match node.parent {
        Some(parent) => push_number(alloc, text, b" ", parent as u64)?,
        None => push(text, b" -")?,
    }
    push_terms(alloc, text, b" c", &node.cost)?;
    for row in &node.rows {
        push_node_row(alloc, text, row)?;
    }
    push(text, b"\n")
}

/// A line of the objective, the set of right-hand sides and the periods; then a line for each column and each row.
pub fn stated_text(alloc: Global, program: &Program) -> Result<Vec<u8>, Memory> {
    let mut text = Vec::new(alloc);
    push_name(&mut text, b"OBJECTIVE ", &program.objective)?;
    push_name(&mut text, b" RHS ", &program.rhs)?;
    push(&mut text, b" PERIODS")?;
    for period in &program.periods {
        push_name(&mut text, b" ", period)?;
    }
    push(&mut text, b"\n")?;
    for column in &program.columns {
        push_column(alloc, &mut text, column)?;
    }
    for row in &program.rows {
        push_row(alloc, &mut text, row)?;
    }
    Ok(text)
}

/// A line for each place of the nodes: the period, the parent, the costs by column, and for each row its number, its entries by column and
/// its interval; or `dropped`.
pub fn nodes_text(alloc: Global, program: &Program) -> Result<Vec<u8>, Memory> {
    let mut text = Vec::new(alloc);
    for slot in &program.nodes {
        match slot {
            Some(node) => push_node(alloc, &mut text, node)?,
            None => push(&mut text, b"dropped\n")?,
        }
    }
    Ok(text)
}
