// Where nodes stand.
ghost use Rattle.std.specs.Prelude.{◌≡◌, ◌++◌, OnOk, map};
ghost use Rattle.scen_defs.specs.Program.{place_content, nodes_content};
ghost use Rattle.scen_tree.specs.Trees.{position_by, position_of};

use scen_defs::Node;
use scen_tree::Position;
use std::alloc::AllocError;

fn position_by(parent: Option<u32>) -> Position
    ensures { result ≡ position_by parent }
{
    match parent {
        Some(number) => Position::Below(number),
        None => Position::Root,
    }
}

pub(crate) fn position_of(place: &Option<Node>) -> Position
    ensures { result ≡ position_of (place_content place.now) }
{
    match place {
        Some(node) => position_by(node.parent),
        None => Position::Dropped,
    }
}

/// Adds where nodes stand.
pub(crate) fn add_positions(
    all: &mut Vec<Position>,
    nodes: &[Option<Node>],
) -> Result<(), AllocError>
    ensures { OnOk result (all.new.items ≡ all.old.items ++ map position_of (nodes_content nodes.now)) }
{
    for place in nodes {
        all.push(position_of(place))?;
    }
    Ok(())
}
