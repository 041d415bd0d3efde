//! The values of all nodes.
ghost use Rattle.std.specs.Prelude.{◌≡◌, [], false, map, get_or, length, IfOk, IfErr, OnOk};
ghost use Rattle.stoch_defs.specs.Random.{block_content, branch_content};
ghost use Rattle.time_defs.specs.Periods.{stages};
ghost use Rattle.tree_build.specs.Values.{values_content, all_content};
ghost use Rattle.tree_build.specs.Wheels.{product, sizes_of};
ghost use Rattle.tree_build.specs.Numbering.{paths_content};
ghost use Rattle.tree_build.specs.Limits.{are_over};
ghost use Rattle.tree_build.specs.Nodes.{no_values, digits_at, block_node, branch_node, branch_nodes, node_in, source_of, with_own};
ghost use Rattle.tree_build.specs.Nodes.{IsFullOf};

use crate::choices::set_choices;
use crate::least::{are_rows_over, blocks_take_none, is_core_over};
use crate::limits::{Counts, with_node};
use crate::numbering::{Debut, Path};
use crate::parts::Values;
use crate::values::{copied, set_all};
use crate::wheels::{Wheel, digits_of};
use core_defs::Core;
use frac128::{Form, Memory};
use smps_build::BuildFault;
use std::alloc::{AllocError, Global};
use stoch_defs::{Block, Branch};
use time_defs::Periods;

/// A copy of the values in that place, none past the last one.
fn copied_at(alloc: Global, all: &[Values], place: usize) -> Result<Values, Memory>
    ensures { IfOk result (λ values. values_content values ≡ get_or (all_content all.now) place no_values) }
{
    if place < all.len() {
        copied(alloc, &all[place])
    } else {
        let cost = Form::empty(alloc);
        let rows = Vec::new(alloc);
        Ok(Values { cost, rows })
    }
}

/// The cases that a scenario has, none past the last one.
pub(crate) fn digits_at(
    alloc: Global,
    wheels: &[Wheel],
    count: usize,
    number: usize,
) -> Result<Vec<usize>, AllocError>
    requires { count ≡ product (sizes_of wheels.now) }
    ensures { IfOk result (λ digits. digits.items ≡ digits_at (sizes_of wheels.now) number) }
{
    if number < count {
        digits_of(alloc, wheels, count, number)
    } else {
        Ok(Vec::new(alloc))
    }
}

/// What a node has of the blocks: the values of the core, and then those that the cases of the scenario set
/// where it first appears.
fn block_node(
    alloc: Global,
    core: &Core,
    periods: &Periods,
    base: &[Values],
    blocks: &[Block],
    wheels: &[Wheel],
    count: usize,
    debut: Debut,
) -> Result<Values, Memory>
    requires { count ≡ product (sizes_of wheels.now) }
    ensures { IfOk result (λ values. values_content values ≡ block_node core.now (stages periods.now) (all_content base.now)
        (map block_content blocks.now) wheels.now debut) }
{
    let digits = digits_at(alloc, wheels, count, debut.scenario)?;
    let mut values = copied_at(alloc, base, debut.stage)?;
    set_choices(
        alloc,
        core,
        periods,
        debut.stage,
        &mut values,
        blocks,
        wheels,
        &digits,
    )?;
    Ok(values)
}

/// What the nodes have of the blocks. Where no case takes a cost or an entry away and the core alone has too much for the nodes, none is
/// made.
pub(crate) fn block_values(
    alloc: Global,
    core: &Core,
    periods: &Periods,
    base: &[Values],
    blocks: &[Block],
    wheels: &[Wheel],
    count: usize,
    debuts: &[Debut],
) -> Result<Vec<Values>, BuildFault>
    requires { count ≡ product (sizes_of wheels.now) }
    ensures all { IfOk result (λ all. all_content all.items ≡ map
        (block_node core.now (stages periods.now) (all_content base.now) (map block_content blocks.now) wheels.now) debuts.now) }
    ensures few { IfOk result (λ all. are_over (all_content all.items) ≡ false) }
    ensures err { IfErr result (IsFullOf
        (map (block_node core.now (stages periods.now) (all_content base.now) (map block_content blocks.now) wheels.now) debuts.now)) }
{
    if blocks_take_none(blocks) && is_core_over(base, debuts) {
        return Err(BuildFault::Limit);
    }
    let mut all = Vec::with_capacity(alloc, debuts.len())?;
    let mut counts = Counts {
        entries: 0,
        rows: 0,
        costs: 0,
    };
    for debut in debuts {
        let next = block_node(alloc, core, periods, base, blocks, wheels, count, *debut)?;
        match with_node(counts, &next) {
            None => return Err(BuildFault::Limit),
            Some(sum) => counts = sum,
        }
        all.push(next)?;
    }
    Ok(all)
}

/// The node of a scenario at a stage, 0 where there is none.
pub(crate) fn node_in(paths: &[Path], scenario: usize, stage: usize) -> u32
    ensures { result ≡ node_in (paths_content paths.now) scenario stage }
{
    if scenario < paths.len() {
        let nodes: &[u32] = &paths[scenario].nodes;
        if stage < nodes.len() { nodes[stage] } else { 0 }
    } else {
        0
    }
}

/// What a scenario's parent has at a stage.
fn source(
    alloc: Global,
    base: &[Values],
    paths: &[Path],
    all: &[Values],
    parent: Option<u32>,
    stage: usize,
) -> Result<Values, Memory>
    ensures { IfOk result (λ values. values_content values ≡ source_of (all_content base.now) (paths_content paths.now)
        (all_content all.now) parent stage) }
{
    match parent {
        None => copied_at(alloc, base, stage),
        Some(number) => copied_at(alloc, all, node_in(paths, number as usize, stage) as usize),
    }
}

/// A node of a scenario that is stated: what its parent has there, and from its branch period on what the
/// scenario sets itself.
fn own_node(
    alloc: Global,
    core: &Core,
    periods: &Periods,
    base: &[Values],
    branch: &Branch,
    paths: &[Path],
    all: &[Values],
    stage: usize,
) -> Result<Values, Memory>
    ensures { IfOk result (λ values. values_content values ≡ with_own core.now (stages periods.now) stage (branch_content branch.now)
        (source_of (all_content base.now) (paths_content paths.now) (all_content all.now) branch.now.parent stage)) }
{
    let mut values = source(alloc, base, paths, all, branch.parent, stage)?;
    if stage >= branch.stage as usize {
        set_all(alloc, core, periods, stage, &mut values, &branch.sets)?;
    }
    Ok(values)
}

/// A node where scenarios are stated.
fn branch_node(
    alloc: Global,
    core: &Core,
    periods: &Periods,
    base: &[Values],
    branches: &[Branch],
    paths: &[Path],
    all: &[Values],
    debut: Debut,
) -> Result<Values, Memory>
    ensures { IfOk result (λ values. values_content values
        ≡ branch_node core.now (stages periods.now) (all_content base.now) (map branch_content branches.now) (paths_content paths.now)
        (all_content all.now) debut) }
{
    if debut.scenario < branches.len() {
        let branch = &branches[debut.scenario];
        own_node(alloc, core, periods, base, branch, paths, all, debut.stage)
    } else {
        copied_at(alloc, base, debut.stage)
    }
}

/// What the nodes have where scenarios are stated. Where they have too many rows, none is made.
pub(crate) fn branch_values(
    alloc: Global,
    core: &Core,
    periods: &Periods,
    base: &[Values],
    branches: &[Branch],
    paths: &[Path],
    debuts: &[Debut],
) -> Result<Vec<Values>, BuildFault>
    ensures all { IfOk result (λ all. all_content all.items
        ≡ branch_nodes core.now (stages periods.now) (all_content base.now) (map branch_content branches.now)
        (paths_content paths.now) [] debuts.now) }
    ensures few { IfOk result (λ all. are_over (all_content all.items) ≡ false) }
    ensures err { IfErr result (IsFullOf (branch_nodes core.now (stages periods.now) (all_content base.now)
        (map branch_content branches.now) (paths_content paths.now) [] debuts.now)) }
{
    if are_rows_over(alloc, base, branches, paths, debuts)? {
        return Err(BuildFault::Limit);
    }
    let mut all = Vec::with_capacity(alloc, debuts.len())?;
    let mut counts = Counts {
        entries: 0,
        rows: 0,
        costs: 0,
    };
    for debut in debuts {
        let next = branch_node(alloc, core, periods, base, branches, paths, &all, *debut)?;
        match with_node(counts, &next) {
            None => return Err(BuildFault::Limit),
            Some(sum) => counts = sum,
        }
        all.push(next)?;
    }
    Ok(all)
}
