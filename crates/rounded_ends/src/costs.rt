//! What a policy costs, rounded.
ghost use Rattle.std.specs.Prelude.{◌≡◌, IfOk, IfSome, length, slice_index_or};
ghost use Rattle.rationals.specs.Rational.{◌+ℚ◌, ◌*ℚ◌, zero_ℚ};
ghost use Rattle.rationals.specs.Sparse.{product};
ghost use Rattle.rationals.specs.Sums.{sum_ℚ};
ghost use Rattle.scen_defs.specs.Values.{at};
ghost use Rattle.scen_defs.specs.Program.{content, view_of};
ghost use Rattle.scen_defs.specs.Flat.{node_cost, cost};
ghost use Rattle.scen_model.specs.Gathered.{AreTotals};
ghost use Rattle.rounded_sums.specs.Sides.{Beside};

use frac128::{Frac, Memory, Term, Unfinished};
use rounded_sums::{Side, SplitSum, side_of_factor};
use scen_defs::{Program, Values};
use scen_model::{all_totals, number_at};
use std::alloc::Global;

/// The cost of a node's values, column by column; they are met from the place `near` on.
fn node_cost(
    side: Side,
    costs: &[Term],
    values: &Values,
    node: u64,
    near: &mut usize,
) -> Option<SplitSum>
    ensures { IfSome result (Beside side (product costs.now (at values.now node))) }
{
    let mut sum = SplitSum::zero();
    for term in costs {
        let value = values.get_near(node, term.column, near);
        match sum.add_product(side, term.value, value) {
            Some(next) => sum = next,
            None => return None,
        }
    }
    Some(sum)
}

/// The sum, and a total times the cost of a node's values.
fn add_node(
    side: Side,
    total: Frac,
    costs: &[Term],
    values: &Values,
    node: u64,
    near: &mut usize,
    sum: SplitSum,
) -> Option<SplitSum>
    ensures { IfSome result (Beside side (sum +ℚ total *ℚ product costs.now (at values.now node))) }
{
    match node_cost(side_of_factor(side, total), costs, values, node, near) {
        Some(cost) => sum.add_times(side, total, cost),
        None => None,
    }
}

/// The totals times the nodes' costs, added up by node.
fn add_nodes(side: Side, program: &Program, totals: &[Frac], values: &Values) -> Option<SplitSum>
    ensures { let v = view_of (content program.now) in
        IfSome result (Beside side (sum_ℚ (λ n. slice_index_or totals.now n zero_ℚ *ℚ node_cost v (at values.now) n) v.live)) }
{
    let mut sum = SplitSum::zero();
    let mut near = 0;
    for (place, slot) in program.nodes.iter().enumerate() {
        if let Some(node) = slot {
            let costs = node.cost.terms();
            let total = number_at(totals, place);
            match add_node(side, total, costs, values, place as u64, &mut near, sum) {
                Some(next) => sum = next,
                None => return None,
            }
        }
    }
    Some(sum)
}

/// The cost where the totals are known.
fn cost_with(side: Side, program: &Program, totals: &[Frac], values: &Values) -> Option<Frac>
    requires totals { AreTotals (view_of (content program.now)) totals.now }
    requires all_totals { length totals.now ≡ length program.now.nodes.items }
    ensures { IfSome result (Beside side (cost (view_of (content program.now)) (at values.now))) }
{
    match add_nodes(side, program, totals, values) {
        Some(cost) => cost.told(side),
        None => None,
    }
}

/// A number that stands on a side of what a policy costs; none where even a rounded sum doesn't fit.
pub fn cost_beside(
    alloc: Global,
    side: Side,
    program: &Program,
    policy: &Values,
) -> Result<Option<Frac>, Memory>
    ensures { IfOk result (λ found. IfSome found (Beside side (cost (view_of (content program.now)) (at policy.now)))) }
{
    match all_totals(alloc, program) {
        Ok(totals) => Ok(cost_with(side, program, totals.as_slice(), policy)),
        Err(Unfinished::Walk) => Ok(None),
        Err(Unfinished::Memory) => Err(Memory),
    }
}
