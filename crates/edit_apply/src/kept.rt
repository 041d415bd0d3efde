// Which nodes are kept where a scenario goes.
ghost use Rattle.std.specs.Prelude.{◌≡◌, ◌∷◌, [], IfOk, None, false, get_or, length, map, replicate};
ghost use Rattle.rationals.specs.Choices.{pick};
ghost use Rattle.scen_defs.specs.Program.{place_content, nodes_content, scenarios_content};
ghost use Rattle.scen_tree.specs.Trees.{position_of};
ghost use Rattle.edit_defs.specs.Limits.{counts, place_counts};
ghost use Rattle.edit_apply.specs.Kept.{kept_from, with_path};
ghost use Rattle.edit_apply.specs.Told.{marks_by};

use crate::counts::{none, place_counts, plus};
use crate::positions::position_of;
use edit_defs::Counts;
use frac128::Memory;
use scen_defs::{Node, Scenario};
use scen_tree::Position;
use std::alloc::{AllocError, Global};

/// Nodes without a mark.
#[tactic(auto, using(scen_defs::proofs::Contents::nodes_length))]
fn unmarked(alloc: Global, nodes: &[Option<Node>]) -> Result<Vec<bool>, AllocError>
    ensures { IfOk result (λ marks. marks.items ≡ replicate (length (nodes_content nodes.now)) false) }
{
    let marks = vec![in alloc; false; nodes.len()]?;
    Ok(marks)
}

/// Marks a node.
#[tactic(auto, using(crate::proofs::Marks::mark_one, crate::proofs::Marks::mark_none))]
fn mark(marks: &mut [bool], node: u32)
    ensures { marks.new ≡ with_path (node ∷ []) 0 marks.old }
{
    let place = node as usize;
    if place >= marks.len() {
        return;
    }
    marks[place] = true;
}

/// Marks the nodes of a path.
fn mark_path(marks: &mut [bool], path: &[u32])
    ensures { marks.new ≡ with_path path.now 0 marks.old }
{
    for node in path {
        mark(marks, *node);
    }
}

/// For each node whether a scenario passes it.
pub(crate) fn reached(
    alloc: Global,
    nodes: &[Option<Node>],
    scenarios: &[Scenario],
) -> Result<Vec<bool>, AllocError>
    ensures { IfOk result (λ marks. marks.items ≡ marks_by (scenarios_content scenarios.now) (nodes_content nodes.now)) }
{
    let mut marks = unmarked(alloc, nodes)?;
    for scenario in scenarios {
        mark_path(&mut marks, &scenario.path);
    }
    Ok(marks)
}

fn is_marked(marks: &[bool], place: usize) -> bool
    ensures { result ≡ get_or marks.now place false }
{
    if place < marks.len() {
        marks[place]
    } else {
        false
    }
}

/// Where a node stands, which goes where it isn't marked.
fn kept_position(place: &Option<Node>, is_marked: bool) -> Position
    ensures { result ≡ position_of (pick is_marked (place_content place.now) None) }
{
    if is_marked {
        position_of(place)
    } else {
        Position::Dropped
    }
}

/// Where the nodes stand, of which those that aren't marked go.
pub(crate) fn kept_positions(
    alloc: Global,
    nodes: &[Option<Node>],
    marks: &[bool],
) -> Result<Vec<Position>, AllocError>
    ensures { IfOk result (λ all. all.items ≡ map position_of (kept_from marks.now 0 (nodes_content nodes.now))) }
{
    let mut all = Vec::new(alloc);
    for (node, place) in nodes.iter().enumerate() {
        all.push(kept_position(place, is_marked(marks, node)))?;
    }
    Ok(all)
}

/// What a node has, which goes where it isn't marked.
fn kept_place(place: &Option<Node>, is_marked: bool) -> Result<Counts, Memory>
    ensures { IfOk result (λ all. all ≡ place_counts (pick is_marked (place_content place.now) None)) }
{
    if is_marked {
        place_counts(place)
    } else {
        Ok(none())
    }
}

/// What the marked nodes have.
pub(crate) fn kept_counts(nodes: &[Option<Node>], marks: &[bool]) -> Result<Counts, Memory>
    ensures { IfOk result (λ all. all ≡ counts (kept_from marks.now 0 (nodes_content nodes.now))) }
{
    let mut all = none();
    for (node, place) in nodes.iter().enumerate() {
        let here = kept_place(place, is_marked(marks, node))?;
        all = plus(all, here)?;
    }
    Ok(all)
}

/// Drops a node that isn't marked.
fn keep_if(place: &mut Option<Node>, is_marked: bool)
    ensures { place_content place.new ≡ pick is_marked (place_content place.old) None }
{
    if !is_marked {
        *place = None;
    }
}

/// Drops the nodes that aren't marked.
#[tactic(auto, using(crate::proofs::Marks::next_kept))]
pub(crate) fn keep(nodes: &mut [Option<Node>], marks: &[bool])
    ensures { nodes_content nodes.new ≡ kept_from marks.now 0 (nodes_content nodes.old) }
{
    for (node, place) in nodes.iter_mut().enumerate() {
        keep_if(place, is_marked(marks, node));
    }
}
