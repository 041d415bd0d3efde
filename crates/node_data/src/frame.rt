//! What stays the same in all runs: parents, children, and the columns of each stage.
//! Nodes that were dropped keep their places, and are no node's children.
ghost use Rattle.std.specs.Prelude.{◌≡◌, ◌<◌, ◌-◌, ◌^◌, [], min, map, length, replicate, IfOk, OnOk};
ghost use Rattle.scen_defs.specs.Program.{content, place_content, nodes_content, view_of};
ghost use Rattle.node_data.specs.Frames.{parent_of, stage_of, columns_from, frame_of, parent_in, children_in, columns_in};
ghost use Rattle.node_data.specs.Frames.{stage_lists, with_column};

use cut_proof::ColumnBounds;
use frac128::Memory;
use scen_defs::{Column, Node, Program};
use scen_tree::{Children, children_of, positions_of};
use std::alloc::Global;
use std::marker::Model;

/// The columns of a stage.
#[derive(Drop)]
struct StageColumns {
    /// Each with its bounds, rising.
    columns: Vec<ColumnBounds>,
}

/// What stays the same in all runs. Numbers are those of the program.
#[derive(Drop)]
pub struct Frame {
    /// The parent of each node; 0 of the root and of what was dropped.
    parents: Vec<u32>,
    /// The children of each node, rising.
    children: Vec<Children>,
    /// The stage of each node.
    stages: Vec<u32>,
    /// The columns of each stage with their bounds, rising.
    columns: Vec<StageColumns>,
}

impl Model for Frame {
    ghost use Rattle.scen_tree.specs.Trees.{lists};
    ghost use Rattle.node_data.specs.Frames.{Frame as FrameLists, stage_lists};

    ghost Value = { FrameLists };

    ghost view = { λ f. record {
      parents = f.parents.items;
      children = lists f.children.items;
      stages = f.stages.items;
      columns = stage_lists f.columns.items;
    } };
}

/// How many of so many places have a number of 32 bits.
fn numbered(places: usize) -> usize
    ensures { result ≡ min places (2 ^ 32 - 1) }
{
    let most = u32::MAX as usize;
    if places < most { places } else { most }
}

/// The parent of the node at a place; 0 where it has none.
fn parent_of(place: &Option<Node>) -> u32
    ensures { result ≡ parent_of (place_content place.now) }
{
    match place {
        Some(node) => match node.parent {
            Some(parent) => parent,
            None => 0,
        },
        None => 0,
    }
}

/// The stage of the node at a place.
fn stage_of(place: &Option<Node>) -> u32
    ensures { result ≡ stage_of (place_content place.now) }
{
    match place {
        Some(node) => node.stage,
        None => 0,
    }
}

/// The parent of each node.
fn parents_of(alloc: Global, nodes: &[Option<Node>]) -> Result<Vec<u32>, Memory>
    ensures { IfOk result (λ parents. parents.items ≡ map parent_of (nodes_content nodes.now)) }
{
    let mut parents = Vec::new(alloc);
    for place in nodes {
        parents.push(parent_of(place))?;
    }
    Ok(parents)
}

/// The stage of each node.
fn stages_of(alloc: Global, nodes: &[Option<Node>]) -> Result<Vec<u32>, Memory>
    ensures { IfOk result (λ stages. stages.items ≡ map stage_of (nodes_content nodes.now)) }
{
    let mut stages = Vec::new(alloc);
    for place in nodes {
        stages.push(stage_of(place))?;
    }
    Ok(stages)
}

/// No columns, for so many stages.
fn no_columns(alloc: Global, count: usize) -> Result<Vec<StageColumns>, Memory>
    ensures { IfOk result (λ all. stage_lists all.items ≡ replicate count []) }
{
    let mut all = Vec::new(alloc);
    for _stage in 0..count {
        all.push(StageColumns {
            columns: Vec::new(alloc),
        })?;
    }
    Ok(all)
}

/// Adds a column to those of its stage, where there is one of that number.
fn add_column(all: &mut Vec<StageColumns>, number: u32, column: &Column) -> Result<(), Memory>
    ensures { OnOk result (stage_lists all.new.items ≡ with_column number column.now 0 (stage_lists all.old.items)) }
{
    let stage = column.stage as usize;
    if stage < all.len() {
        all[stage].columns.push(ColumnBounds {
            column: number,
            lower: column.lower,
            upper: column.upper,
        })?;
    }
    Ok(())
}

/// The columns of each stage.
fn columns_of(alloc: Global, program: &Program) -> Result<Vec<StageColumns>, Memory>
    ensures { let p = content program.now in IfOk result (λ all. length p.columns < 2 ^ 32
        → stage_lists all.items ≡ columns_from (view_of p) 0 (length p.periods)) }
{
    let columns = &program.columns;
    let mut all = no_columns(alloc, program.periods.len())?;
    for number in 0..numbered(columns.len()) {
        add_column(&mut all, number as u32, &columns[number])?;
    }
    Ok(all)
}

impl Frame {
    /// The frame of a program.
    pub fn of(alloc: Global, program: &Program) -> Result<Frame, Memory>
        ensures { IfOk result (λ frame. frame ≡ frame_of (content program.now)) }
    {
        let parents = parents_of(alloc, &program.nodes)?;
        let positions = positions_of(alloc, &program.nodes)?;
        let children = children_of(alloc, &positions)?;
        let stages = stages_of(alloc, &program.nodes)?;
        let columns = columns_of(alloc, program)?;
        Ok(Frame {
            parents,
            children,
            stages,
            columns,
        })
    }

    /// The parent of each node; 0 of the root and of what was dropped.
    pub fn parents(&self) -> &[u32]
        ensures { result.now ≡ self.now.parents }
    {
        &self.parents
    }

    /// How many places there are for nodes; at most 2^32 - 1.
    pub fn nodes(&self) -> u32
        ensures { result ≡ min (length self.now.parents) (2 ^ 32 - 1) }
    {
        numbered(self.parents.len()) as u32
    }

    /// The parent of a node, none of the root.
    pub fn parent(&self, node: u32) -> Option<u32>
        ensures { result ≡ parent_in self.now node }
    {
        if node == 0 {
            None
        } else {
            self.parents.get(node as usize).copied()
        }
    }

    /// The children of a node, rising.
    pub fn children(&self, node: u32) -> &[u32]
        ensures { result.now ≡ children_in self.now node }
    {
        let place = node as usize;
        if place < self.children.len() {
            &self.children[place].nodes
        } else {
            &[]
        }
    }

    /// The columns of a node's stage with their bounds, rising.
    pub fn columns(&self, node: u32) -> &[ColumnBounds]
        ensures { result.now ≡ columns_in self.now node }
    {
        let place = node as usize;
        if place >= self.stages.len() {
            return &[];
        }
        let stage = self.stages[place] as usize;
        if stage < self.columns.len() {
            &self.columns[stage].columns
        } else {
            &[]
        }
    }
}
