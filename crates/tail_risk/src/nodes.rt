// The nodes of the program.
ghost use Rattle.std.specs.Prelude.{◌≡◌, ◌++◌, IfOk, MatchResult, Ok, length};
ghost use Rattle.frac128.specs.Faults.{FaultOf};
ghost use Rattle.scen_defs.specs.Lists.{passes_at};
ghost use Rattle.scen_defs.specs.Program.{content, is_live, node_at, node_content, place_content, nodes_content};
ghost use Rattle.scen_defs.specs.Valid.{Lives};
ghost use Rattle.tail_risk.specs.TailProgram.{added_row, node_with};
ghost use Rattle.tail_risk.specs.TailWalk.{node_walk, place_walk, nodes_walk};

use crate::costs::{last_stage, scaled_form, with_added_costs};
use crate::rates::Rates;
use crate::row::tail_row;
use frac128::{ArithmeticFault, Memory};
use scen_copies::copied_node_rows;
use scen_defs::{Node, NodeRow, Program};
use scen_nodes::find;
use std::alloc::Global;

/// The rows of a live node, and behind them TAIL_R where it is of the last stage.
fn with_added_row(
    alloc: Global,
    program: &Program,
    number: u64,
    stage: u32,
    rows: &[NodeRow],
) -> Result<Vec<NodeRow>, Memory>
    requires { Lives (content program.now) number }
    ensures { IfOk result (λ all. all.items ≡ rows.now ++ added_row (content program.now) number stage) }
{
    let mut all = copied_node_rows(alloc, rows)?;
    if last_stage(program) == stage as usize {
        let row = tail_row(alloc, program, number)?;
        all.push(row)?;
    }
    Ok(all)
}

/// The node of this number, which is live.
fn tail_node(
    alloc: Global,
    program: &Program,
    rates: &Rates,
    number: u64,
    node: &Node,
) -> Result<Node, ArithmeticFault>
    requires live { Lives (content program.now) number }
    requires node { node_at (content program.now).nodes number ≡ node_content node.now }
    ensures { MatchResult result (λ made. node_walk (content program.now) rates.now number ≡ Ok (node_content made))
        (FaultOf (node_walk (content program.now) rates.now number)) }
{
    let scaled = scaled_form(alloc, rates.old, &node.cost)?;
    let cost = with_added_costs(program, rates, node.stage, scaled)?;
    let rows = with_added_row(alloc, program, number, node.stage, &node.rows)?;
    Ok(Node {
        stage: node.stage,
        parent: node.parent,
        cost,
        rows,
    })
}

/// What stands at this number.
fn tail_place(
    alloc: Global,
    program: &Program,
    rates: &Rates,
    number: u64,
) -> Result<Option<Node>, ArithmeticFault>
    ensures { MatchResult result (λ made. place_walk (content program.now) rates.now number ≡ Ok (place_content made))
        (FaultOf (place_walk (content program.now) rates.now number)) }
{
    match find(&program.nodes, number) {
        Some(node) => {
            let made = tail_node(alloc, program, rates, number, node)?;
            Ok(Some(made))
        }
        None => Ok(None),
    }
}

/// All nodes.
pub(crate) fn tail_nodes(
    alloc: Global,
    program: &Program,
    rates: &Rates,
) -> Result<Vec<Option<Node>>, ArithmeticFault>
    ensures { MatchResult result
        (λ nodes. nodes_walk (content program.now) rates.now 0 (length program.now.nodes.items) ≡ Ok (nodes_content nodes.items))
        (FaultOf (nodes_walk (content program.now) rates.now 0 (length program.now.nodes.items))) }
{
    let mut nodes = Vec::new(alloc);
    for number in 0..program.nodes.len() {
        let place = tail_place(alloc, program, rates, number as u64)?;
        nodes.push(place)?;
    }
    Ok(nodes)
}
