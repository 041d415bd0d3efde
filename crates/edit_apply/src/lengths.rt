// How many terms a form has before and after one of its entries is set.
ghost use Rattle.std.specs.Prelude.{◌≡◌, length};
ghost use Rattle.scen_defs.specs.Program.{nodes_content, node_at};
ghost use Rattle.edit_defs.specs.After.{set_entry};
ghost use Rattle.edit_defs.specs.Shifts.{find_row};

use edit_defs::row_of;
use edit_entries::length_with;
use frac128::{Form, Frac};
use scen_defs::{Node, NodeRow};
use scen_nodes::find;
use std::alloc::Global;

/// How many terms a form has, and how many with the value in the column.
fn lengths(form: &Form, column: u32, value: Frac) -> (usize, usize)
    ensures less { result.0 ≡ length form.now }
    ensures more { result.1 ≡ length (set_entry column value form.now) }
{
    (form.len(), length_with(form, column as u64, value))
}

/// The same of the costs of a node; of no terms where it isn't live.
pub(crate) fn cost_lengths(
    alloc: Global,
    nodes: &[Option<Node>],
    node: u32,
    column: u32,
    value: Frac,
) -> (usize, usize)
    ensures less { result.0 ≡ length (node_at (nodes_content nodes.now) node).cost }
    ensures more { result.1 ≡ length (set_entry column value (node_at (nodes_content nodes.now) node).cost) }
{
    match find(nodes, node as u64) {
        Some(found) => lengths(&found.cost, column, value),
        None => {
            let bare = Form::empty(alloc);
            lengths(&bare, column, value)
        }
    }
}

/// The same of a row among a node's rows.
fn row_lengths(
    alloc: Global,
    rows: &[NodeRow],
    row: u32,
    column: u32,
    value: Frac,
) -> (usize, usize)
    ensures less { result.0 ≡ length (find_row row rows.now).entries }
    ensures more { result.1 ≡ length (set_entry column value (find_row row rows.now).entries) }
{
    match row_of(rows, row) {
        Some(found) => lengths(&found.entries, column, value),
        None => {
            let bare = Form::empty(alloc);
            lengths(&bare, column, value)
        }
    }
}

/// The same of a row of a node.
pub(crate) fn entry_lengths(
    alloc: Global,
    nodes: &[Option<Node>],
    node: u32,
    row: u32,
    column: u32,
    value: Frac,
) -> (usize, usize)
    ensures less { result.0 ≡ length (find_row row (node_at (nodes_content nodes.now) node).rows).entries }
    ensures more { result.1 ≡ length (set_entry column value (find_row row (node_at (nodes_content nodes.now) node).rows).entries) }
{
    match find(nodes, node as u64) {
        Some(found) => row_lengths(alloc, &found.rows, row, column, value),
        None => row_lengths(alloc, &[], row, column, value),
    }
}
