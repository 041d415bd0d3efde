// What each node of a stage has.
ghost use Rattle.std.specs.Prelude.{◌≡◌, [], MatchOption, get_or};
ghost use Rattle.scen_defs.specs.Ends.{number};
ghost use Rattle.scen_defs.specs.Program.{node_at, nodes_content};
ghost use Rattle.edit_defs.specs.Shifts.{no_row};
ghost use Rattle.value_programs.specs.Mean.{row_end, node_form};

use frac128::{Form, Frac};
use scen_defs::{Node, NodeRow};
use scen_nodes::find;

/// A form that each node of a stage has: its costs, or the entries of the row at a place among its rows.
#[derive(Clone, Copy, Debug)]
pub(crate) enum NodeForm {
    Cost,
    Entries(usize),
}

/// An end of a row's interval.
#[derive(Clone, Copy, Debug)]
pub(crate) enum RowEnd {
    Low,
    High,
}

/// The row at a place among those of a node.
fn row_at(nodes: &[Option<Node>], node: u32, place: usize) -> Option<&NodeRow>
    ensures { MatchOption result
        (get_or (node_at (nodes_content nodes.now) node).rows place no_row ≡ no_row)
        (λ row. get_or (node_at (nodes_content nodes.now) node).rows place no_row ≡ row.now) }
{
    let found = find(nodes, node as u64)?;
    if place < found.rows.len() {
        Some(&found.rows[place])
    } else {
        None
    }
}

/// A form of a node, where it isn't 0 for want of a node or a row.
pub(crate) fn node_form(nodes: &[Option<Node>], node: u32, form: NodeForm) -> Option<&Form>
    ensures { MatchOption result (node_form form (node_at (nodes_content nodes.now) node) ≡ [])
        (λ found. node_form form (node_at (nodes_content nodes.now) node) ≡ found.now) }
{
    match form {
        NodeForm::Cost => match find(nodes, node as u64) {
            Some(found) => Some(&found.cost),
            None => None,
        },
        NodeForm::Entries(place) => match row_at(nodes, node, place) {
            Some(row) => Some(&row.entries),
            None => None,
        },
    }
}

/// An end of the row at a place among those of a node; 0 where it has none.
pub(crate) fn row_end(nodes: &[Option<Node>], node: u32, end: RowEnd, place: usize) -> Frac
    ensures { result ≡ number (row_end end place (node_at (nodes_content nodes.now) node)) }
{
    let found = match row_at(nodes, node, place) {
        None => None,
        Some(row) => match end {
            RowEnd::Low => row.low,
            RowEnd::High => row.high,
        },
    };
    found.unwrap_or(Frac::zero())
}
