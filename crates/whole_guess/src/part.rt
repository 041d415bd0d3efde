//! Some rows of some nodes as a program of their own, in which every cost is 0.

use crate::flat::{push_columns, push_row};
use crate::layout::{Layout, node_of, path_to};
use basis_values::ExactProgram;
use frac128::{Frac, Memory};
use scen_defs::{Kind, Program, Values};
use std::alloc::Global;

/// Some numbers, rising, each once.
fn distinct(alloc: Global, mut numbers: Vec<u32>) -> Result<Vec<u32>, Memory> {
    numbers.sort_unstable();
    let mut distinct = Vec::new(alloc);
    let mut last = None;
    for number in &numbers {
        if last != Some(*number) {
            distinct.push(*number)?;
            last = Some(*number);
        }
    }
    Ok(distinct)
}

/// The nodes of some lines and all above them, rising.
fn nodes_of(alloc: Global, program: &Program, lines: &Values) -> Result<Vec<u32>, Memory> {
    let mut nodes = Vec::new(alloc);
    let mut last = None;
    for line in lines.items() {
        if last != Some(line.node) {
            nodes.extend_from_slice(&path_to(alloc, program, line.node)?)?;
            last = Some(line.node);
        }
    }
    distinct(alloc, nodes)
}

/// Adds those rows of a node that have a line.
fn push_rows(
    alloc: Global,
    exact: &mut ExactProgram,
    program: &Program,
    layout: &Layout,
    lines: &Values,
    number: u32,
) -> Result<(), Memory> {
    let Some(node) = node_of(program, number) else {
        return Ok(());
    };
    let path = path_to(alloc, program, number)?;
    for row in &node.rows {
        if !lines.get(number as u64, row.row as u64).is_zero() {
            push_row(alloc, exact, program, layout, Kind::Feasible, &path, row)?;
        }
    }
    Ok(())
}

/// The rows that have a line, over the columns of their nodes and of those above. None where a column isn't one of the program's.
pub(crate) fn part_program(
    alloc: Global,
    program: &Program,
    layout: &mut Layout,
    lines: &Values,
) -> Result<Option<ExactProgram>, Memory> {
    let nodes = nodes_of(alloc, program, lines)?;
    layout.take(program, &nodes);
    let mut exact = ExactProgram::new(alloc);
    for number in &nodes {
        if let Some(node) = node_of(program, *number) {
            let free = Frac::zero();
            if !push_columns(&mut exact, program, layout, Kind::Feasible, node, free)? {
                return Ok(None);
            }
        }
    }
    for number in &nodes {
        push_rows(alloc, &mut exact, program, layout, lines, *number)?;
    }
    Ok(Some(exact))
}
