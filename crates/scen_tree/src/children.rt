//! The children of nodes.
ghost use Rattle.std.specs.Prelude.{◌≡◌, ◌<◌, ◌^◌, length, IfOk, OnOk};
ghost use Rattle.scen_tree.specs.Trees.{lists, with_child, empty_lists, children_from};
ghost use Rattle.scen_tree.specs.declared.position.Position.TheVariants.{Below};

use crate::position::Position;
use std::alloc::{AllocError, Global};

/// The children of a node.
#[derive(Drop)]
pub struct Children {
    /// Their numbers, rising.
    pub nodes: Vec<u32>,
}

/// No children, for so many nodes.
fn childless(alloc: Global, positions: &[Position]) -> Result<Vec<Children>, AllocError>
    ensures { IfOk result (λ all. lists all.items ≡ empty_lists positions.now) }
{
    let mut all = Vec::new(alloc);
    for _position in positions {
        all.push(Children {
            nodes: Vec::new(alloc),
        })?;
    }
    Ok(all)
}

/// Adds a node to the children of its parent.
fn add_child(all: &mut Vec<Children>, node: u32, position: Position) -> Result<(), AllocError>
    ensures { OnOk result (lists all.new.items ≡ with_child node position 0 (lists all.old.items)) }
{
    match position {
        Position::Dropped => Ok(()),
        Position::Root => Ok(()),
        Position::Below(parent) => push_child(all, node, parent),
    }
}

/// Adds a node to the children of that parent, where there is one of that number.
fn push_child(all: &mut Vec<Children>, node: u32, parent: u32) -> Result<(), AllocError>
    ensures { OnOk result (lists all.new.items ≡ with_child node (Below parent) 0 (lists all.old.items)) }
{
    let place = parent as usize;
    if place < all.len() {
        all[place].nodes.push(node)?;
    }
    Ok(())
}

/// The children of each node.
pub fn children_of(alloc: Global, positions: &[Position]) -> Result<Vec<Children>, AllocError>
    requires { length positions.now < 2 ^ 32 }
    ensures { IfOk result (λ all. lists all.items ≡ children_from positions.now 0 positions.now) }
{
    let mut all = childless(alloc, positions)?;
    for (node, position) in positions.iter().enumerate() {
        add_child(&mut all, node as u32, *position)?;
    }
    Ok(all)
}
