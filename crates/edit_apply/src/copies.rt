// Copies of a path's nodes.
ghost use Rattle.std.specs.Prelude.{◌≡◌, ◌+◌, ◌<◌, ◌^◌, ◌++◌, ◌∷◌, [], IfOk, OnOk, Some, None, length};
ghost use Rattle.rationals.specs.Choices.{pick};
ghost use Rattle.edit_apply.specs.Kept.{new_node};
ghost use Rattle.scen_defs.specs.Program.{node_at, node_content, no_node, nodes_content};
ghost use Rattle.edit_defs.specs.After.{copies, copy, new_path};

use frac128::{Form, Memory};
use scen_copies::copied_node_rows;
use scen_defs::Node;
use std::alloc::Global;

/// So many places of nodes a program has at most where a scenario is added: there are at most 16 new ones, and numbers have 32 bits.
const MOST_PLACES: usize = u32::MAX as usize - 16;

/// A copy of a node below another parent.
fn copied(alloc: Global, node: &Node, above: Option<u32>) -> Result<Node, Memory>
    ensures { IfOk result (λ new. node_content new ≡ record (node_content node.now) { parent = above }) }
{
    let cost = node.cost.copy(alloc)?;
    let rows = copied_node_rows(alloc, &node.rows)?;
    Ok(Node {
        stage: node.stage,
        parent: above,
        cost,
        rows,
    })
}

/// A node without costs and rows, as stands for a node that isn't live.
fn bare(alloc: Global, above: Option<u32>) -> Node
    ensures { node_content result ≡ record no_node { parent = above } }
{
    Node {
        stage: 0,
        parent: above,
        cost: Form::empty(alloc),
        rows: Vec::new(alloc),
    }
}

/// A copy of the node of that number.
fn copy(
    alloc: Global,
    nodes: &[Option<Node>],
    above: Option<u32>,
    node: u32,
) -> Result<Node, Memory>
    ensures { IfOk result (λ new. copy (nodes_content nodes.now) above node ≡ Some (node_content new)) }
{
    let place = node as usize;
    if place >= nodes.len() {
        return Ok(bare(alloc, above));
    }
    match &nodes[place] {
        Some(found) => copied(alloc, found, above),
        None => Ok(bare(alloc, above)),
    }
}

/// The number of the node at a stage of the new path.
fn new_node(stages: u32, first: u32, stage: usize, node: u32) -> Result<u32, Memory>
    ensures { IfOk result (λ number. number ≡ new_node stages first stage node) }
{
    let shared = stages as usize;
    if stage < shared {
        return Ok(node);
    }
    match (first as usize).checked_add(stage - shared) {
        Some(number) => small(number),
        None => Err(Memory),
    }
}

/// A number in 32 bits.
fn small(number: usize) -> Result<u32, Memory>
    ensures { IfOk result (λ small. small ≡ number) }
{
    match u32::try_from(number) {
        Ok(small) => Ok(small),
        Err(_) => Err(Memory),
    }
}

/// The number behind those of all nodes, where sixteen more keep within 32 bits.
#[tactic(auto, using(scen_defs::proofs::Contents::nodes_length))]
pub(crate) fn first_new(nodes: &[Option<Node>]) -> Result<u32, Memory>
    ensures first { IfOk result (λ first. first ≡ length (nodes_content nodes.now)) }
    ensures room { OnOk result (length (nodes_content nodes.now) + 16 < 2 ^ 32) }
{
    if nodes.len() > MOST_PLACES {
        return Err(Memory);
    }
    small(nodes.len())
}

/// Adds the copy of the node at a stage, where it isn't shared.
#[tactic(auto, using(scen_defs::proofs::Contents::nodes_push))]
fn push_copy(
    alloc: Global,
    all: &mut Vec<Option<Node>>,
    nodes: &[Option<Node>],
    is_shared: bool,
    above: Option<u32>,
    node: u32,
) -> Result<(), Memory>
    ensures { OnOk result (nodes_content all.new.items
        ≡ nodes_content all.old.items ++ pick is_shared [] (copy (nodes_content nodes.now) above node ∷ [])) }
{
    if is_shared {
        return Ok(());
    }
    let new = copy(alloc, nodes, above, node)?;
    all.push(Some(new))?;
    Ok(())
}

/// Copies of the nodes of a path behind the first stages, numbered from `first` on, each below the one before it.
#[tactic(auto, using(crate::proofs::Numbers::copies_are))]
pub(crate) fn copies(
    alloc: Global,
    nodes: &[Option<Node>],
    stages: u32,
    first: u32,
    path: &[u32],
) -> Result<Vec<Option<Node>>, Memory>
    ensures { IfOk result (λ all. nodes_content all.items ≡ copies (nodes_content nodes.now) stages None first path.now) }
{
    let mut all = Vec::new(alloc);
    let mut above = None;
    for (stage, node) in path.iter().enumerate() {
        push_copy(
            alloc,
            &mut all,
            nodes,
            stage < stages as usize,
            above,
            *node,
        )?;
        above = Some(new_node(stages, first, stage, *node)?);
    }
    Ok(all)
}

/// The path's nodes of the first stages, and behind them new ones, numbered from `first` on.
#[tactic(auto, using(crate::proofs::Numbers::numbers_are))]
pub(crate) fn new_path(
    alloc: Global,
    stages: u32,
    first: u32,
    path: &[u32],
) -> Result<Vec<u32>, Memory>
    ensures { IfOk result (λ new. new.items ≡ new_path stages first path.now) }
{
    let mut new = Vec::new(alloc);
    for (stage, node) in path.iter().enumerate() {
        let number = new_node(stages, first, stage, *node)?;
        new.push(number)?;
    }
    Ok(new)
}
