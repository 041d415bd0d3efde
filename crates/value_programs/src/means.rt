// The program of the means.
ghost use Rattle.std.specs.Prelude.{◌≡◌, ◌<◌, ◌^◌, IfOk, MatchResult, Ok, length};
ghost use Rattle.frac128.specs.Faults.{FaultOf, IfNotMemory};
ghost use Rattle.scen_defs.specs.Program.{content, node_content, nodes_content, place_content};
ghost use Rattle.scen_defs.specs.Valid.{has_low, has_high};
ghost use Rattle.scen_tree.specs.Trees.{tree_walk};
ghost use Rattle.value_programs.specs.Mean.{is_of_stage, nodes_of_stage, weight_in};
ghost use Rattle.value_programs.specs.Mean.{mean_name, mean_node, mean_nodes, mean_row, mean_rows, mean_walk};

use crate::line::{in_line, stage_before};
use crate::parts::{NodeForm, RowEnd};
use crate::sums::{mean_end, mean_form};
use frac128::{ArithmeticFault, Memory};
use scen_defs::{Node, NodeRow, Program, Row};
use scen_tree::Tree;
use smps_words::{Name, RowKind};
use std::alloc::Global;

/// Whether a live node of a stage stands there.
fn is_of_stage(place: &Option<Node>, stage: u32) -> bool
    ensures { result ≡ is_of_stage stage (place_content place.now) }
{
    match place {
        Some(node) => node.stage == stage,
        None => false,
    }
}

/// The live nodes of a stage, rising.
fn nodes_of_stage(alloc: Global, nodes: &[Option<Node>], stage: u32) -> Result<Vec<u32>, Memory>
    requires { length nodes.now < 2 ^ 32 }
    ensures { IfOk result (λ all. all.items ≡ nodes_of_stage (nodes_content nodes.now) stage) }
{
    let mut all = Vec::new(alloc);
    for (number, place) in nodes.iter().enumerate() {
        if is_of_stage(place, stage) {
            all.push(number as u32)?;
        }
    }
    Ok(all)
}

/// Whether a row has a low end at each of its nodes.
fn has_low(row: &Row) -> bool
    ensures { result ≡ has_low row.now.kind row.now.range }
{
    match row.kind {
        RowKind::Less => row.range.is_some(),
        RowKind::Greater => true,
        RowKind::Equal => true,
    }
}

/// Whether it has a high end.
fn has_high(row: &Row) -> bool
    ensures { result ≡ has_high row.now.kind row.now.range }
{
    match row.kind {
        RowKind::Less => true,
        RowKind::Greater => row.range.is_some(),
        RowKind::Equal => true,
    }
}

/// A row of the means: that of this number, which stands at this place among the rows of each of these nodes.
fn mean_row(
    alloc: Global,
    nodes: &[Option<Node>],
    tree: &Tree,
    over: &[u32],
    number: u32,
    place: usize,
    row: &Row,
) -> Result<NodeRow, ArithmeticFault>
    ensures { IfNotMemory result (mean_row (nodes_content nodes.now) (weight_in tree.now) over.now number place row.now) }
{
    let low = mean_end(nodes, tree, has_low(row), RowEnd::Low, place, over)?;
    let high = mean_end(nodes, tree, has_high(row), RowEnd::High, place, over)?;
    let entries = mean_form(alloc, nodes, tree, NodeForm::Entries(place), over)?;
    Ok(NodeRow {
        row: number,
        entries,
        low,
        high,
    })
}

/// The rows of a stage.
fn mean_rows(
    alloc: Global,
    nodes: &[Option<Node>],
    tree: &Tree,
    over: &[u32],
    stage: u32,
    rows: &[Row],
) -> Result<Vec<NodeRow>, ArithmeticFault>
    requires { length rows.now < 2 ^ 32 }
    ensures { MatchResult result
        (λ all. mean_rows (nodes_content nodes.now) (weight_in tree.now) over.now stage 0 0 rows.now ≡ Ok all.items)
        (FaultOf (mean_rows (nodes_content nodes.now) (weight_in tree.now) over.now stage 0 0 rows.now)) }
{
    let mut all = Vec::new(alloc);
    let mut place: usize = 0;
    for (number, row) in rows.iter().enumerate() {
        if row.stage == stage {
            let made = mean_row(alloc, nodes, tree, over, number as u32, place, row)?;
            all.push(made)?;
            place += 1;
        }
    }
    Ok(all)
}

/// The node of a stage.
fn mean_node(
    alloc: Global,
    program: &Program,
    tree: &Tree,
    stage: u32,
) -> Result<Node, ArithmeticFault>
    ensures { MatchResult result
        (λ node. mean_node (content program.now) (weight_in tree.now) stage ≡ Ok (node_content node))
        (FaultOf (mean_node (content program.now) (weight_in tree.now) stage)) }
{
    let over = nodes_of_stage(alloc, &program.nodes, stage)?;
    let cost = mean_form(alloc, &program.nodes, tree, NodeForm::Cost, &over)?;
    let rows = mean_rows(alloc, &program.nodes, tree, &over, stage, &program.rows)?;
    Ok(Node {
        stage,
        parent: stage_before(stage),
        cost,
        rows,
    })
}

/// The nodes of all stages.
fn mean_nodes(
    alloc: Global,
    program: &Program,
    tree: &Tree,
) -> Result<Vec<Option<Node>>, ArithmeticFault>
    ensures { MatchResult result
        (λ nodes. mean_nodes (content program.now) (weight_in tree.now) 0 (length program.now.periods.items)
        ≡ Ok (nodes_content nodes.items))
        (FaultOf (mean_nodes (content program.now) (weight_in tree.now) 0 (length program.now.periods.items))) }
{
    let mut nodes = Vec::new(alloc);
    for stage in 0..program.periods.len() {
        let node = mean_node(alloc, program, tree, stage as u32)?;
        nodes.push(Some(node))?;
    }
    Ok(nodes)
}

/// The program of the means, by the program's tree: one scenario, in which each cost, entry and finite end is the sum, over the nodes of
/// its stage, of total times value. `Passed` names the first operation that passes: by stage those of the costs, node by node, then those
/// of each row's low and high end and of its entries, node by node.
pub fn mean_program(
    alloc: Global,
    program: &Program,
    tree: &Tree,
) -> Result<Program, ArithmeticFault>
    requires { tree_walk (content program.now) ≡ Ok tree.now }
    ensures { MatchResult result (λ means. mean_walk (content program.now) tree.now ≡ Ok (content means))
        (FaultOf (mean_walk (content program.now) tree.now)) }
{
    let nodes = mean_nodes(alloc, program, tree)?;
    let name = Name::new(alloc, b"MEAN")?;
    let means = in_line(alloc, program, name, nodes)?;
    Ok(means)
}
