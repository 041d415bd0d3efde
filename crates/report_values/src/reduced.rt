//! Reduced costs: of a column at a node, the node's probability times its cost less, row by row, its entry times the multiplier, over the
//! rows of the node and of the nodes below it.
use crate::amount::Amount;
use crate::tree::{Seating, above, column_stage};
use frac128::{Frac, Memory, Term};
use scen_defs::{Node, NodeRow, Program, Values};
use std::alloc::Global;

/// The numbers of each node, by the seats of its columns.
pub(crate) type ByNode = Vec<Vec<Amount>>;

/// A node's probability times the costs of its columns; 0 where costs don't count.
fn priced(
    alloc: Global,
    seating: &Seating,
    node: &Node,
    probability: &Amount,
    with_costs: bool,
) -> Result<Vec<Amount>, Memory> {
    let columns = seating.columns(node.stage);
    let mut numbers = Vec::with_capacity(alloc, columns.len())?;
    for column in columns {
        let number = if with_costs {
            let cost = node.cost.get(u64::from(*column));
            probability.times(&Amount::Known(cost))
        } else {
            Amount::Known(Frac::zero())
        };
        numbers.push(number)?;
    }
    Ok(numbers)
}

/// The same of all nodes.
fn all_priced(
    alloc: Global,
    program: &Program,
    seating: &Seating,
    chances: &[Amount],
    with_costs: bool,
) -> Result<ByNode, Memory> {
    let mut all = Vec::with_capacity(alloc, program.nodes.len())?;
    for (place, slot) in program.nodes.iter().enumerate() {
        let probability = match chances.get(place) {
            Some(found) => *found,
            None => Amount::Passed,
        };
        let numbers = match slot {
            Some(node) => priced(alloc, seating, node, &probability, with_costs)?,
            None => Vec::new(alloc),
        };
        all.push(numbers)?;
    }
    Ok(all)
}

/// Takes an entry times a multiplier away from the number at a seat of a node.
fn take_away(all: &mut ByNode, node: u64, seat: usize, entry: Frac, multiplier: Frac) {
    let place = node as usize;
    if place >= all.len() {
        return;
    }
    let numbers = &mut all[place];
    if seat < numbers.len() {
        let number = numbers[seat].less_product(entry, multiplier);
        numbers[seat] = number;
    }
}

/// Takes the entries of a node's row, times its multiplier, away.
fn take_row(
    all: &mut ByNode,
    program: &Program,
    seating: &Seating,
    node: u64,
    entries: &[Term],
    multiplier: Frac,
) {
    for entry in entries {
        let home = above(program, node, column_stage(program, entry.column));
        take_away(
            all,
            home,
            seating.seat(entry.column),
            entry.value,
            multiplier,
        );
    }
}

/// Takes the rows of a node away.
fn take_rows(
    all: &mut ByNode,
    program: &Program,
    seating: &Seating,
    node: u64,
    rows: &[NodeRow],
    multipliers: &Values,
    near: &mut usize,
) {
    for row in rows {
        let multiplier = multipliers.get_near(node, u64::from(row.row), near);
        if !multiplier.is_zero() {
            take_row(all, program, seating, node, row.entries.terms(), multiplier);
        }
    }
}

/// The reduced costs of all nodes' columns by multipliers; of a ray without costs.
pub(crate) fn reduced_costs(
    alloc: Global,
    program: &Program,
    seating: &Seating,
    chances: &[Amount],
    multipliers: &Values,
    with_costs: bool,
) -> Result<ByNode, Memory> {
    let mut all = all_priced(alloc, program, seating, chances, with_costs)?;
    let mut near = 0;
    for (place, slot) in program.nodes.iter().enumerate() {
        if let Some(node) = slot {
            take_rows(
                &mut all,
                program,
                seating,
                place as u64,
                &node.rows,
                multipliers,
                &mut near,
            );
        }
    }
    Ok(all)
}
