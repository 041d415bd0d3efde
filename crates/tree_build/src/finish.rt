//! The program, from its scenarios and the values of its nodes.
ghost use Rattle.std.specs.Prelude.{◌≡◌, ◌<◌, ◌^◌, [], Ok, Err, map, length, get_or, IfOk, MatchResult};
ghost use Rattle.scen_defs.specs.Program.{scenarios_content, nodes_content, content};
ghost use Rattle.scen_tree.specs.declared.position.Position.TheVariants.{Root};
ghost use Rattle.rationals.specs.Replies.{IsReply, reply_by};
ghost use Rattle.scen_tree.specs.Chances.{chances_walk, chances_of};
ghost use Rattle.smps_build.specs.Faults.{build_says, BuildFaultOf};
ghost use Rattle.build_defs.specs.Built.{columns_from, rows_from};
ghost use Rattle.time_defs.specs.Periods.{stages};
ghost use Rattle.tree_build.specs.Values.{all_content};
ghost use Rattle.tree_build.specs.Numbering.{paths_content};
ghost use Rattle.tree_build.specs.Finish.{position_at, parent_in, no_debut, value_nodes, finish_walk, GivesPrograms, AreStaged};
ghost use Rattle.tree_build.specs.Finish.{build_fault};

use crate::nodes::node_in;
use crate::numbering::{Debut, Path};
use crate::parts::Values;
use crate::rows::node_rows;
use core_defs::{Core, RowDef};
use frac128::ArithmeticFault;
use scen_defs::{Column, Node, Program, Row, Scenario};
use scen_tree::{Chances, Position, node_chances};
use smps_build::{BuildFault, copied};
use smps_words::Name;
use std::alloc::{AllocError, Global};
use time_defs::Periods;

/// Where a node stands in the tree.
fn position_at(paths: &[Path], debut: Debut) -> Position
    ensures { result ≡ position_at (paths_content paths.now) debut }
{
    if debut.stage == 0 {
        Position::Root
    } else {
        Position::Below(node_in(paths, debut.scenario, debut.stage - 1))
    }
}

/// Where each node stands in the tree.
pub(crate) fn positions(
    alloc: Global,
    paths: &[Path],
    debuts: &[Debut],
) -> Result<Vec<Position>, AllocError>
    ensures { IfOk result (λ all. all.items ≡ map (position_at (paths_content paths.now)) debuts.now) }
{
    let mut all = Vec::with_capacity(alloc, debuts.len())?;
    for debut in debuts {
        all.push(position_at(paths, *debut))?;
    }
    Ok(all)
}

/// Why no program is built, where no tree is made.
fn build_fault(fault: ArithmeticFault) -> BuildFault
    ensures { result ≡ build_fault fault }
{
    match fault {
        ArithmeticFault::Passed(passed) => BuildFault::Passed(passed),
        ArithmeticFault::Memory => BuildFault::Memory,
    }
}

/// The totals and the shares, which are computed to see that no operation passes.
fn try_chances(
    alloc: Global,
    positions: &[Position],
    scenarios: &[Scenario],
) -> Result<Chances, BuildFault>
    requires { length positions.now < 2 ^ 32 }
    ensures { IsReply (chances_walk positions.now (scenarios_content scenarios.now)) (reply_by chances_of build_says result) }
{
    match node_chances(alloc, positions, scenarios) {
        Ok(chances) => Ok(chances),
        Err(fault) => Err(build_fault(fault)),
    }
}

/// The stage of a node.
fn stage_at(debuts: &[Debut], node: usize) -> u32
    requires { AreStaged debuts.now }
    ensures { result ≡ (get_or debuts.now node no_debut).stage }
{
    if node < debuts.len() {
        debuts[node].stage as u32
    } else {
        0
    }
}

/// The parent of a node.
fn parent_at(positions: &[Position], node: usize) -> Option<u32>
    ensures { result ≡ parent_in (get_or positions.now node Root) }
{
    if node < positions.len() {
        match positions[node] {
            Position::Dropped => None,
            Position::Root => None,
            Position::Below(parent) => Some(parent),
        }
    } else {
        None
    }
}

/// The nodes with their intervals; or the first operation that passes.
fn nodes(
    alloc: Global,
    defs: &[RowDef],
    debuts: &[Debut],
    positions: &[Position],
    values: Vec<Values>,
) -> Result<Vec<Option<Node>>, BuildFault>
    requires { AreStaged debuts.now }
    ensures { MatchResult result (λ nodes. value_nodes defs.now debuts.now positions.now [] (all_content values.items)
        ≡ Ok (nodes_content nodes.items))
        (BuildFaultOf (value_nodes defs.now debuts.now positions.now [] (all_content values.items))) }
{
    let mut nodes = Vec::with_capacity(alloc, values.len())?;
    for found in values {
        let number = nodes.len();
        let Values { cost, rows } = found;
        let rows = node_rows(alloc, defs, rows)?;
        nodes.push(Some(Node {
            stage: stage_at(debuts, number),
            parent: parent_at(positions, number),
            cost,
            rows,
        }))?;
    }
    Ok(nodes)
}

/// The stage in that place, 0 past the last one.
fn stage_in(stages: &[u32], place: usize) -> u32
    ensures { result ≡ get_or stages.now place 0 }
{
    if place < stages.len() {
        stages[place]
    } else {
        0
    }
}

fn columns_of(alloc: Global, core: &Core, periods: &Periods) -> Result<Vec<Column>, AllocError>
    ensures { IfOk result (λ all. all.items ≡ columns_from (stages periods.now) 0 core.now.columns.items) }
{
    let mut all = Vec::new(alloc);
    for (place, column) in core.columns.iter().enumerate() {
        let name = copied(alloc, &column.name)?;
        let lower = column.lower;
        let upper = column.upper;
        all.push(Column {
            name,
            stage: stage_in(&periods.column_stage, place),
            lower,
            upper,
        })?;
    }
    Ok(all)
}

fn rows_of(alloc: Global, core: &Core, periods: &Periods) -> Result<Vec<Row>, AllocError>
    ensures { IfOk result (λ all. all.items ≡ rows_from (stages periods.now) 0 core.now.rows.items) }
{
    let mut all = Vec::new(alloc);
    for (place, row) in core.rows.iter().enumerate() {
        let name = copied(alloc, &row.name)?;
        let kind = row.kind;
        let range = row.range;
        all.push(Row {
            name,
            stage: stage_in(&periods.row_stage, place),
            kind,
            range,
        })?;
    }
    Ok(all)
}

fn names_of(alloc: Global, names: &[Name]) -> Result<Vec<Name>, AllocError>
    ensures { IfOk result (λ all. all.items ≡ names.now) }
{
    let mut all = Vec::new(alloc);
    for name in names {
        all.push(copied(alloc, name)?)?;
    }
    Ok(all)
}

/// The program, from its scenarios and the values of its nodes; or the first operation that passes.
pub(crate) fn finish(
    alloc: Global,
    core: &Core,
    periods: &Periods,
    debuts: &[Debut],
    positions: &[Position],
    scenarios: Vec<Scenario>,
    values: Vec<Values>,
) -> Result<Program, BuildFault>
    requires staged { AreStaged debuts.now }
    requires few { length positions.now < 2 ^ 32 }
    requires keeps { GivesPrograms (finish_walk core.now (stages periods.now) debuts.now positions.now
        (scenarios_content scenarios.items) (all_content values.items)) }
    ensures { MatchResult result (λ program. finish_walk core.now (stages periods.now) debuts.now positions.now
        (scenarios_content scenarios.items) (all_content values.items) ≡ Ok (content program))
        (BuildFaultOf (finish_walk core.now (stages periods.now) debuts.now positions.now (scenarios_content scenarios.items)
        (all_content values.items))) }
{
    try_chances(alloc, positions, &scenarios)?;
    let nodes = nodes(alloc, &core.rows, debuts, positions, values)?;
    Ok(Program::of_parts(
        copied(alloc, &core.objective)?,
        copied(alloc, &core.rhs_set)?,
        names_of(alloc, &periods.names)?,
        columns_of(alloc, core, periods)?,
        rows_of(alloc, core, periods)?,
        nodes,
        scenarios,
    ))
}
