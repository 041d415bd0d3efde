//! The tree of a program.
ghost use Rattle.std.specs.Prelude.{◌≡◌, ◌<◌, ◌^◌, length, map, get_or, [], MatchResult, Ok, IfOk};
ghost use Rattle.rationals.specs.Rational.{zero_ℚ};
ghost use Rattle.scen_defs.specs.Program.{content, place_content, nodes_content};
ghost use Rattle.frac128.specs.Faults.{FaultOf};
ghost use Rattle.scen_tree.specs.Trees.{position_by, position_of, tree_walk};

use crate::children::{Children, children_of};
use crate::position::Position;
use crate::shares::{Chances, node_chances, number_at};
use frac128::{ArithmeticFault, Frac};
use scen_defs::{Node, Program};
use std::alloc::{AllocError, Global};
use std::marker::Model;

/// The children of each node of a program, its total and its share.
#[derive(Drop)]
pub struct Tree {
    children: Vec<Children>,
    chances: Chances,
}

impl Model for Tree {
    ghost use Rattle.scen_tree.specs.Chances.{chances_of};
    ghost use Rattle.scen_tree.specs.Trees.{Tree as TreeLists, lists};

    ghost Value = { TreeLists };

    ghost view = { λ t. record { children = lists t.children.items; chances = chances_of t.chances } };
}

fn position_by(parent: Option<u32>) -> Position
    ensures { result ≡ position_by parent }
{
    match parent {
        Some(number) => Position::Below(number),
        None => Position::Root,
    }
}

/// Where a node stands.
fn position_of(place: &Option<Node>) -> Position
    ensures { result ≡ position_of (place_content place.now) }
{
    match place {
        Some(node) => position_by(node.parent),
        None => Position::Dropped,
    }
}

/// Where each node stands.
pub fn positions_of(alloc: Global, nodes: &[Option<Node>]) -> Result<Vec<Position>, AllocError>
    ensures { IfOk result (λ positions. positions.items ≡ map position_of (nodes_content nodes.now)) }
{
    let mut positions = Vec::new(alloc);
    for place in nodes {
        positions.push(position_of(place))?;
    }
    Ok(positions)
}

impl Tree {
    /// The tree of a program. `Passed` names the first operation that passes: of the totals by node, each by
    /// scenario, and then of the shares by node.
    pub fn of(alloc: Global, program: &Program) -> Result<Tree, ArithmeticFault>
        requires { length program.now.nodes.items < 2 ^ 32 }
        ensures { MatchResult result (λ tree. tree_walk (content program.now) ≡ Ok tree)
            (FaultOf (tree_walk (content program.now))) }
    {
        let positions = positions_of(alloc, &program.nodes)?;
        let chances = node_chances(alloc, &positions, &program.scenarios)?;
        let children = children_of(alloc, &positions)?;
        Ok(Tree { children, chances })
    }

    /// The children of a node, rising.
    pub fn children(&self, node: u32) -> &[u32]
        requires { node < length self.now.children }
        ensures { result.now ≡ get_or self.now.children node [] }
    {
        &self.children[node as usize].nodes
    }

    /// The probability of all scenarios through a node.
    pub fn total(&self, node: u32) -> Frac
        ensures { result ≡ get_or self.now.chances.totals node zero_ℚ }
    {
        number_at(&self.chances.totals, node)
    }

    /// The total of a node divided by that of its parent, 1 at the root.
    pub fn share(&self, node: u32) -> Frac
        ensures { result ≡ get_or self.now.chances.shares node zero_ℚ }
    {
        number_at(&self.chances.shares, node)
    }
}
