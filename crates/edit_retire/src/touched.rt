// What an edit touches.
ghost use Rattle.std.specs.Prelude.{◌≡◌, ◌++◌, ◌-◌, IfOk, OnOk, length, take, map, true};
ghost use Rattle.scen_defs.specs.Lists.{is_in};
ghost use Rattle.scen_defs.specs.Program.{content, scenarios_content};
ghost use Rattle.scen_defs.specs.Valid.{is_reached};
ghost use Rattle.edit_defs.specs.After.{others};
ghost use Rattle.edit_defs.specs.Applies.{Applies};
ghost use Rattle.edit_defs.specs.Touches.{costs_of, costs_or_gone, part_of_entry, touches};

use cut_defs::Part;
use edit_defs::{Edit, Touched, home, path};
use frac128::Memory;
use scen_defs::{Program, Scenario};
use smps_words::{Entry, Name};
use std::alloc::Global;

/// The part that an entry belongs to.
fn part_of(entry: Entry) -> Part
    ensures { result ≡ part_of_entry entry }
{
    match entry {
        Entry::Cost { column: _ } => Part::Costs,
        Entry::Matrix { row: _, column: _ } => Part::Rows,
        Entry::Rhs { row: _ } => Part::Rows,
    }
}

/// Whether a path has the node.
fn is_on(path: &[u32], node: u32) -> bool
    ensures { result ≡ is_in node path.now }
{
    for place in path {
        if *place == node {
            return true;
        }
    }
    false
}

/// Whether a scenario of another name passes the node.
fn is_shared(scenarios: &[Scenario], name: &Name, node: u32) -> bool
    ensures { result ≡ is_reached node (others name.now (scenarios_content scenarios.now)) }
{
    for scenario in scenarios {
        let named = *name == scenario.name;
        if !named && is_on(&scenario.path, node) {
            return true;
        }
    }
    false
}

/// The costs of each node.
fn costs(alloc: Global, nodes: &[u32]) -> Result<Vec<Touched>, Memory>
    ensures { IfOk result (λ all. all.items ≡ map costs_of nodes.now) }
{
    let mut all = Vec::new(alloc);
    for node in nodes {
        all.push(Touched {
            node: *node,
            part: Part::Costs,
        })?;
    }
    Ok(all)
}

/// The costs of each node that another scenario passes too, and the others as gone.
fn dropped(
    alloc: Global,
    program: &Program,
    name: &Name,
    nodes: &[u32],
) -> Result<Vec<Touched>, Memory>
    ensures { IfOk result (λ all. all.items ≡ map (costs_or_gone (content program.now) name.now) nodes.now) }
{
    let mut all = Vec::new(alloc);
    for node in nodes {
        let part = if is_shared(&program.scenarios, name, *node) {
            Part::Costs
        } else {
            Part::Gone
        };
        all.push(Touched { node: *node, part })?;
    }
    Ok(all)
}

/// All nodes but the last.
fn front(path: &[u32]) -> &[u32]
    ensures { result.now ≡ take (length path.now - 1) path.now }
{
    let count = path.len().saturating_sub(1);
    &path[..count]
}

/// The nodes of the first so many stages.
fn first(path: &[u32], stages: u32) -> &[u32]
    ensures { result.now ≡ take stages path.now }
{
    let count = stages as usize;
    if count < path.len() {
        &path[..count]
    } else {
        path
    }
}

/// The parts that an edit touches, in the order of the path: of a SET the rows or the costs of the entry's node; of a
/// PROB the costs of each node on the path that has children; of a DROP each node that only this scenario passes as
/// gone, and the costs of the others on the path; of an ADD the costs of each shared node.
pub fn touches(alloc: Global, program: &Program, edit: &Edit) -> Result<Vec<Touched>, Memory>
    requires applies { Applies (content program.now) edit.now }
    ensures { IfOk result (λ all. all.items ≡ touches (content program.now) edit.now) }
{
    match edit {
        Edit::Set {
            scenario,
            entry,
            value: _,
        } => {
            let mut all = Vec::new(alloc);
            all.push(Touched {
                node: home(program, scenario, *entry),
                part: part_of(*entry),
            })?;
            Ok(all)
        }
        Edit::Prob {
            scenario,
            probability: _,
        } => costs(alloc, front(path(program, scenario))),
        Edit::Drop { scenario } => dropped(alloc, program, scenario, path(program, scenario)),
        Edit::Add {
            name: _,
            parent,
            probability: _,
            stage,
        } => costs(alloc, first(path(program, parent), *stage)),
    }
}
