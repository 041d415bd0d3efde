// The parent of a node.
ghost use Rattle.std.specs.Prelude.{◌≡◌};
ghost use Rattle.scen_defs.specs.Program.{content, or_root, view_of};

use scen_defs::Program;
use scen_nodes::find;

/// The parent's number, 0 where there is none.
pub(crate) fn parent(program: &Program, node: u32) -> u32
    ensures { result ≡ (view_of (content program.now)).parent node }
{
    match find(&program.nodes, node as u64) {
        Some(found) => root_or(found.parent),
        None => 0,
    }
}

/// The node, or the root where there is none.
fn root_or(node: Option<u32>) -> u32
    ensures { result ≡ or_root node }
{
    match node {
        Some(number) => number,
        None => 0,
    }
}
