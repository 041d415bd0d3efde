//! Numbers of the whole program as the lists of a claim.

use crate::layout::Layout;
use frac128::{Frac, Memory};
use scen_defs::{Node, Program, Values};
use std::alloc::Global;

/// The number at a place, 0 where there is none.
pub(crate) fn number_at(numbers: &[Frac], place: usize) -> Frac {
    if place < numbers.len() {
        numbers[place]
    } else {
        Frac::zero()
    }
}

/// Puts a number behind the others, unless it is 0.
pub(crate) fn put(values: &mut Values, node: u32, index: u32, value: Frac) -> Result<(), Memory> {
    if !value.is_zero() && values.ends_before(node, index) {
        values.push(node, index, value)?;
    }
    Ok(())
}

/// Puts the numbers of a node's columns.
fn put_columns(
    values: &mut Values,
    layout: &Layout,
    number: u32,
    node: &Node,
    point: &[Frac],
) -> Result<(), Memory> {
    for column in layout.columns(node.stage) {
        let place = layout.place(number, *column) as usize;
        put(values, number, *column, number_at(point, place))?;
    }
    Ok(())
}

/// The point of all nodes, of numbers by column.
pub(crate) fn point_list(
    alloc: Global,
    program: &Program,
    layout: &Layout,
    point: &[Frac],
) -> Result<Values, Memory> {
    let mut values = Values::empty(alloc);
    let mut number = 0u32;
    for node in &program.nodes {
        if let Some(node) = node {
            put_columns(&mut values, layout, number, node, point)?;
        }
        number = number.saturating_add(1);
    }
    Ok(values)
}

/// Puts the multipliers of a node's rows, and gives the place behind them.
fn put_rows(
    values: &mut Values,
    number: u32,
    node: &Node,
    multipliers: &[Frac],
    first: usize,
) -> Result<usize, Memory> {
    let mut place = first;
    for row in &node.rows {
        put(values, number, row.row, number_at(multipliers, place))?;
        place = place.saturating_add(1);
    }
    Ok(place)
}

/// The multipliers of all nodes, of numbers by row.
pub(crate) fn row_list(
    alloc: Global,
    program: &Program,
    multipliers: &[Frac],
) -> Result<Values, Memory> {
    let mut values = Values::empty(alloc);
    let mut place = 0usize;
    let mut number = 0u32;
    for node in &program.nodes {
        if let Some(node) = node {
            place = put_rows(&mut values, number, node, multipliers, place)?;
        }
        number = number.saturating_add(1);
    }
    Ok(values)
}
