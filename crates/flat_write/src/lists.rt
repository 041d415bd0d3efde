//! Lists of the nodes of a program, and what stands at each.
ghost use Rattle.std.specs.Prelude.{◌≡◌, IfOk};
ghost use Rattle.scen_defs.specs.Program.{content, view_of};
ghost use Rattle.scen_defs.specs.Flat.{subtree};

use frac128::Memory;
use scen_defs::{NodeRow, Program};
use scen_nodes::{find, is_above, stage};
use std::alloc::Global;

/// The nodes that weren't dropped, rising.
pub(crate) fn live_nodes(alloc: Global, program: &Program) -> Result<Vec<u64>, Memory>
    ensures { IfOk result (λ live. live.items ≡ (view_of (content program.now)).live) }
{
    let mut live = Vec::new(alloc);
    for (place, slot) in program.nodes.iter().enumerate() {
        if slot.is_some() {
            live.push(place as u64)?;
        }
    }
    Ok(live)
}

/// The rows of a node.
pub(crate) fn rows_at(program: &Program, node: u64) -> &[NodeRow]
    ensures { result.now ≡ (view_of (content program.now)).rows node }
{
    match find(&program.nodes, node) {
        Some(found) => &found.rows,
        None => &[],
    }
}

/// The columns of a node's stage, rising.
pub(crate) fn columns_at(alloc: Global, program: &Program, node: u64) -> Result<Vec<u64>, Memory>
    ensures { let v = view_of (content program.now) in IfOk result (λ columns. columns.items ≡ v.columns (v.stage node)) }
{
    let stage = stage(program, node);
    let mut columns = Vec::new(alloc);
    for (place, column) in program.columns.iter().enumerate() {
        if column.stage == stage {
            columns.push(place as u64)?;
        }
    }
    Ok(columns)
}

/// Those of the live nodes that are a node or stand below it.
pub(crate) fn subtree(
    alloc: Global,
    program: &Program,
    live: &[u64],
    node: u64,
) -> Result<Vec<u64>, Memory>
    requires { live.now ≡ (view_of (content program.now)).live }
    ensures { IfOk result (λ nodes. nodes.items ≡ subtree (view_of (content program.now)) node) }
{
    let mut nodes = Vec::new(alloc);
    for lower in live {
        if is_above(program, node, *lower) {
            nodes.push(*lower)?;
        }
    }
    Ok(nodes)
}
