// Sums over the nodes of a stage, each weighted by its total.
ghost use Rattle.std.specs.Prelude.{◌≡◌};
ghost use Rattle.rationals.specs.Forms.{add_scaled_walk};
ghost use Rattle.frac128.specs.Faults.{IfNotMemory};
ghost use Rattle.scen_defs.specs.Ends.{number};
ghost use Rattle.scen_defs.specs.Program.{node_at, nodes_content};
ghost use Rattle.value_programs.specs.Mean.{row_end, node_form, mean_end, mean_form, mean_number, weight_in};

use crate::parts::{NodeForm, RowEnd, node_form, row_end};
use frac128::{ArithmeticFault, Form, Frac, Passed};
use scen_defs::Node;
use scen_tree::Tree;
use std::alloc::Global;

/// A sum and the weighted form of one more node.
fn with_node(
    alloc: Global,
    nodes: &[Option<Node>],
    sum: &Form,
    weight: Frac,
    form: NodeForm,
    node: u32,
) -> Result<Form, ArithmeticFault>
    ensures { IfNotMemory result (add_scaled_walk sum.now weight (node_form form (node_at (nodes_content nodes.now) node))) }
{
    match node_form(nodes, node, form) {
        Some(found) => sum.add_scaled(weight, found),
        None => {
            let none = Form::empty(alloc);
            sum.add_scaled(weight, &none)
        }
    }
}

/// The sum of a form over nodes.
pub(crate) fn mean_form(
    alloc: Global,
    nodes: &[Option<Node>],
    tree: &Tree,
    form: NodeForm,
    over: &[u32],
) -> Result<Form, ArithmeticFault>
    ensures { IfNotMemory result (mean_form (weight_in tree.now)
        (λ n. node_form form (node_at (nodes_content nodes.now) n)) over.now) }
{
    let mut sum = Form::empty(alloc);
    for node in over {
        sum = with_node(alloc, nodes, &sum, tree.total(*node), form, *node)?;
    }
    Ok(sum)
}

/// The sum of an end of a row over nodes.
fn mean_number(
    nodes: &[Option<Node>],
    tree: &Tree,
    end: RowEnd,
    place: usize,
    over: &[u32],
) -> Result<Frac, Passed>
    ensures { result ≡ mean_number (weight_in tree.now)
        (λ n. number (row_end end place (node_at (nodes_content nodes.now) n))) over.now }
{
    let mut sum = Frac::zero();
    for node in over {
        sum = sum.add_product(tree.total(*node), row_end(nodes, *node, end, place))?;
    }
    Ok(sum)
}

/// The sum of an end over nodes, where the row has one.
pub(crate) fn mean_end(
    nodes: &[Option<Node>],
    tree: &Tree,
    is_there: bool,
    end: RowEnd,
    place: usize,
    over: &[u32],
) -> Result<Option<Frac>, Passed>
    ensures { result ≡ mean_end is_there (mean_number (weight_in tree.now)
        (λ n. number (row_end end place (node_at (nodes_content nodes.now) n))) over.now) }
{
    if !is_there {
        return Ok(None);
    }
    let sum = mean_number(nodes, tree, end, place, over)?;
    Ok(Some(sum))
}
