//! Where the columns of all nodes stand in one program.

use frac128::Memory;
use scen_defs::{Node, Program};
use std::alloc::Global;

/// The columns of the whole program: node by node, and those of a node by their numbers.
#[derive(Drop)]
pub(crate) struct Layout {
    /// By period the columns of its nodes, rising.
    stages: Vec<Vec<u32>>,
    /// By column its place among those of its period.
    places: Vec<u32>,
    /// By node where its columns begin.
    firsts: Vec<u32>,
}

/// The number at a place, 0 where there is none.
pub(crate) fn number_at(numbers: &[u32], place: u32) -> u32 {
    let place = place as usize;
    if place < numbers.len() {
        numbers[place]
    } else {
        0
    }
}

/// The columns of each period, and by column its place there.
fn staged(alloc: Global, program: &Program) -> Result<(Vec<Vec<u32>>, Vec<u32>), Memory> {
    let mut stages = Vec::new(alloc);
    for _period in &program.periods {
        stages.push(Vec::new(alloc))?;
    }
    let mut places = Vec::new(alloc);
    let mut number = 0u32;
    for column in &program.columns {
        places.push(put_last(&mut stages, column.stage, number)?)?;
        number = number.saturating_add(1);
    }
    Ok((stages, places))
}

/// Puts a column behind those of its period, and gives its place there.
fn put_last(stages: &mut [Vec<u32>], stage: u32, column: u32) -> Result<u32, Memory> {
    let stage = stage as usize;
    if stage >= stages.len() {
        return Ok(0);
    }
    let place = stages[stage].len().min(u32::MAX as usize);
    stages[stage].push(column)?;
    Ok(place as u32)
}

impl Layout {
    /// The layout of a program.
    pub(crate) fn of(alloc: Global, program: &Program) -> Result<Layout, Memory> {
        let (stages, places) = staged(alloc, program)?;
        let mut layout = Layout {
            stages,
            places,
            firsts: Vec::new(alloc),
        };
        let mut next = 0u32;
        for node in &program.nodes {
            layout.firsts.push(next)?;
            next = next.saturating_add(layout.width(node));
        }
        Ok(layout)
    }

    /// Lays out the columns of some nodes alone. From then on those of other nodes have no place.
    pub(crate) fn take(&mut self, program: &Program, nodes: &[u32]) {
        let mut next = 0u32;
        for number in nodes {
            let place = *number as usize;
            if place < self.firsts.len() && place < program.nodes.len() {
                self.firsts[place] = next;
                next = next.saturating_add(self.width(&program.nodes[place]));
            }
        }
    }

    /// How many columns a node has.
    fn width(&self, node: &Option<Node>) -> u32 {
        match node {
            Some(node) => self.columns(node.stage).len().min(u32::MAX as usize) as u32,
            None => 0,
        }
    }

    /// The columns of a period, rising.
    pub(crate) fn columns(&self, stage: u32) -> &[u32] {
        let stage = stage as usize;
        if stage < self.stages.len() {
            &self.stages[stage]
        } else {
            &[]
        }
    }

    /// Where a column of a node stands.
    pub(crate) fn place(&self, node: u32, column: u32) -> u32 {
        number_at(&self.firsts, node).saturating_add(number_at(&self.places, column))
    }
}

/// The nodes on the way from the root to a node, by period.
pub(crate) fn path_to(alloc: Global, program: &Program, node: u32) -> Result<Vec<u32>, Memory> {
    let mut path = Vec::new(alloc);
    for _period in &program.periods {
        path.push(node)?;
    }
    let mut at = node;
    for _period in &program.periods {
        let Some((stage, parent)) = position(program, at) else {
            break;
        };
        let stage = stage as usize;
        if stage < path.len() {
            path[stage] = at;
        }
        let Some(parent) = parent else {
            break;
        };
        at = parent;
    }
    Ok(path)
}

/// The node of a number.
pub(crate) fn node_of(program: &Program, number: u32) -> Option<&Node> {
    let place = number as usize;
    if place < program.nodes.len() {
        program.nodes[place].as_ref()
    } else {
        None
    }
}

/// The period and the parent of a node.
fn position(program: &Program, number: u32) -> Option<(u32, Option<u32>)> {
    let node = node_of(program, number)?;
    Some((node.stage, node.parent))
}
