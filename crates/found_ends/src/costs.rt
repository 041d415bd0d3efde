//! What the joined points of a run cost.
ghost use Rattle.std.specs.Prelude.{◌≡◌, option_copied};
ghost use Rattle.scen_defs.specs.Program.{content, place_content};
ghost use Rattle.found_ends.specs.Costs.{part, node_number, joined_cost};

use crate::last::Lasts;
use frac128::{Form, Frac, Passed};
use scen_defs::{Node, Program};
use scen_tree::Tree;

/// The sum, and a node's total times what its point costs, added as a step; nothing where it was dropped or has no point.
fn add_part(
    total: Frac,
    place: &Option<Node>,
    point: Option<&Form>,
    sum: Frac,
) -> Result<Frac, Passed>
    ensures { result ≡ part total (place_content place.now) (option_copied point.entry) sum }
{
    if let (Some(node), Some(point)) = (place, point) {
        let own = node.cost.dot(point)?;
        return sum.add_product(total, own);
    }
    Ok(sum)
}

/// The number of the node at a place. There are fewer than 2^32 of them.
fn node_number(place: usize) -> u32
    ensures { result ≡ node_number place }
{
    if place < u32::MAX as usize {
        place as u32
    } else {
        u32::MAX
    }
}

/// What the points of all nodes cost together: by node the sum by column of cost times value, and the total times that sum,
/// each added as a step. The totals are those of the tree.
pub fn cost(program: &Program, tree: &Tree, lasts: &Lasts) -> Result<Frac, Passed>
    ensures { result ≡ joined_cost (content program.now).nodes tree.now.chances.totals lasts.now.nodes.items }
{
    let mut sum = Frac::zero();
    for (place, node) in program.nodes.iter().enumerate() {
        let total = tree.total(node_number(place));
        sum = add_part(total, node, lasts.point(place), sum)?;
    }
    Ok(sum)
}
