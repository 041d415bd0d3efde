// Which costs count, and what a column costs at a node.
ghost use Rattle.std.specs.Prelude.{◌≡◌};
ghost use Rattle.rationals.specs.Sparse.{coefficient};
ghost use Rattle.scen_defs.specs.Program.{content, view_of};
ghost use Rattle.scen_model.specs.Walks.{costs_of};

use frac128::Frac;
use scen_defs::Program;
use scen_nodes::find;

/// Which costs count.
#[derive(Clone, Copy)]
pub enum Costs {
    Own,
    Zero,
}

/// The cost of a column at a node, 0 where there is none.
pub(crate) fn cost_at(program: &Program, costs: Costs, node: u64, column: u64) -> Frac
    ensures { result ≡ coefficient (costs_of costs (view_of (content program.now)) node) column }
{
    match costs {
        Costs::Own => match find(&program.nodes, node) {
            Some(found) => found.cost.get(column),
            None => Frac::zero(),
        },
        Costs::Zero => Frac::zero(),
    }
}
