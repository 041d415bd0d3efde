// An entry set in place.
ghost use Rattle.std.specs.Prelude.{◌≡◌, ◌<◌, true, map, length, get_or, OnOk, OnErr};
ghost use Rattle.scen_defs.specs.Lists.{Once, passes_at};
ghost use Rattle.scen_defs.specs.Program.{node_content, nodes_content, node_at, is_live};
ghost use Rattle.scen_defs.specs.declared.program.NodeRow.{NodeRow};
ghost use Rattle.edit_defs.specs.After.{change_node, change_row, with_ends, with_entry};
ghost use Rattle.edit_entries.specs.InPlace.{with_row_ends, with_row_entry, with_cost};

use crate::entry::with_entry;
use frac128::{Frac, Memory};
use scen_defs::{Node, NodeRow};
use std::alloc::Global;

/// The place of a row among a node's rows.
fn row_place(rows: &[NodeRow], row: u32) -> usize
    requires { Once row (map (λ (r : NodeRow). r.row) rows.now) }
    ensures within { result < length rows.now }
    ensures row { (found : NodeRow) → found ≡ get_or rows.now result found → found.row ≡ row }
{
    for (place, found) in rows.iter().enumerate() {
        if found.row == row {
            return place;
        }
    }
    unreachable!()
}

/// Gives a row these ends, where it has the number.
fn set_row(found: &mut NodeRow, row: u32, ends: &(Option<Frac>, Option<Frac>))
    ensures { found.new ≡ change_row row (with_ends ends.now) found.old }
{
    if found.row == row {
        found.low = ends.0;
        found.high = ends.1;
    }
}

/// Gives a row among a node's rows these ends.
fn set_row_ends(rows: &mut [NodeRow], row: u32, ends: &(Option<Frac>, Option<Frac>))
    requires { Once row (map (λ (r : NodeRow). r.row) rows.old) }
    ensures { rows.new ≡ map (change_row row (with_ends ends.now)) rows.old }
{
    let place = row_place(rows, row);
    set_row(&mut rows[place], row, ends);
}

/// Gives a row of a node these ends.
fn set_node_ends(node: &mut Node, row: u32, ends: &(Option<Frac>, Option<Frac>))
    requires { Once row (map (λ (r : NodeRow). r.row) node.old.rows.items) }
    ensures { node_content node.new ≡ with_row_ends row ends.now (node_content node.old) }
{
    set_row_ends(&mut node.rows, row, ends);
}

/// Gives a row of a live node these ends.
pub fn set_ends(
    nodes: &mut [Option<Node>],
    place: u32,
    row: u32,
    ends: &(Option<Frac>, Option<Frac>),
)
    requires live { passes_at is_live place (nodes_content nodes.old) ≡ true }
    requires once { Once row (map (λ (r : NodeRow). r.row) (node_at (nodes_content nodes.old) place).rows) }
    ensures { nodes_content nodes.new ≡ change_node place (with_row_ends row ends.now) (nodes_content nodes.old) }
{
    match &mut nodes[place as usize] {
        Some(node) => set_node_ends(node, row, ends),
        None => {}
    }
}

/// Gives a row the value in the column, where it has the number.
fn set_row_entry(
    alloc: Global,
    found: &mut NodeRow,
    row: u32,
    column: u32,
    value: Frac,
) -> Result<(), Memory>
    ensures ok { OnOk result (found.new ≡ change_row row (with_entry column value) found.old) }
    ensures err { OnErr result (found.new ≡ found.old) }
{
    if found.row == row {
        let entries = with_entry(alloc, &found.entries, column as u64, value)?;
        found.entries = entries;
    }
    Ok(())
}

/// Sets the cost of a column at a node.
fn set_node_cost(alloc: Global, node: &mut Node, column: u32, value: Frac) -> Result<(), Memory>
    ensures ok { OnOk result (node_content node.new ≡ with_cost column value (node_content node.old)) }
    ensures err { OnErr result (node_content node.new ≡ node_content node.old) }
{
    let cost = with_entry(alloc, &node.cost, column as u64, value)?;
    node.cost = cost;
    Ok(())
}

/// Sets the cost of a column at a live node.
pub fn set_cost(
    alloc: Global,
    nodes: &mut [Option<Node>],
    place: u32,
    column: u32,
    value: Frac,
) -> Result<(), Memory>
    requires { passes_at is_live place (nodes_content nodes.old) ≡ true }
    ensures ok { OnOk result (nodes_content nodes.new ≡ change_node place (with_cost column value) (nodes_content nodes.old)) }
    ensures err { OnErr result (nodes_content nodes.new ≡ nodes_content nodes.old) }
{
    match &mut nodes[place as usize] {
        Some(node) => {
            set_node_cost(alloc, node, column, value)?;
            Ok(())
        }
        None => Ok(()),
    }
}

/// Sets an entry of a row among a node's rows.
fn set_rows_entry(
    alloc: Global,
    rows: &mut [NodeRow],
    row: u32,
    column: u32,
    value: Frac,
) -> Result<(), Memory>
    requires { Once row (map (λ (r : NodeRow). r.row) rows.old) }
    ensures ok { OnOk result (rows.new ≡ map (change_row row (with_entry column value)) rows.old) }
    ensures err { OnErr result (rows.new ≡ rows.old) }
{
    let place = row_place(rows, row);
    set_row_entry(alloc, &mut rows[place], row, column, value)?;
    Ok(())
}

/// Sets an entry of a node.
fn set_node_entry(
    alloc: Global,
    node: &mut Node,
    row: u32,
    column: u32,
    value: Frac,
) -> Result<(), Memory>
    requires { Once row (map (λ (r : NodeRow). r.row) node.old.rows.items) }
    ensures ok { OnOk result (node_content node.new ≡ with_row_entry row column value (node_content node.old)) }
    ensures err { OnErr result (node_content node.new ≡ node_content node.old) }
{
    set_rows_entry(alloc, &mut node.rows, row, column, value)?;
    Ok(())
}

/// Sets an entry of a live node.
pub fn set_matrix(
    alloc: Global,
    nodes: &mut [Option<Node>],
    place: u32,
    row: u32,
    column: u32,
    value: Frac,
) -> Result<(), Memory>
    requires live { passes_at is_live place (nodes_content nodes.old) ≡ true }
    requires once { Once row (map (λ (r : NodeRow). r.row) (node_at (nodes_content nodes.old) place).rows) }
    ensures ok { OnOk result (nodes_content nodes.new ≡ change_node place (with_row_entry row column value) (nodes_content nodes.old)) }
    ensures err { OnErr result (nodes_content nodes.new ≡ nodes_content nodes.old) }
{
    match &mut nodes[place as usize] {
        Some(node) => {
            set_node_entry(alloc, node, row, column, value)?;
            Ok(())
        }
        None => Ok(()),
    }
}
