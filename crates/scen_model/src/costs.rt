// What a policy costs.
ghost use Rattle.std.specs.Prelude.{◌≡◌, IfOk};
ghost use Rattle.rationals.specs.Rational.{zero_ℚ};
ghost use Rattle.scen_defs.specs.Values.{at};
ghost use Rattle.scen_defs.specs.Program.{content, scenarios_content, view_of};
ghost use Rattle.scen_model.specs.Answers.{Answers};
ghost use Rattle.rationals.specs.Forms.{product_from};
ghost use Rattle.scen_model.specs.Walks.{cost_step, costs_walk, cost_walk};
ghost use Rattle.scen_model.specs.Gathered.{cost_step_with, costs_with};

use crate::ends::number_at;
use crate::totals::{all_totals, total, totals};
use frac128::{Frac, Memory, Passed, Term, Unfinished};
use scen_defs::{Halt, Place, Program, Scenario, Values};
use std::alloc::Global;

/// The cost of a node's values, column by column; they are met from the place `near` on.
fn node_cost(costs: &[Term], values: &Values, node: u64, near: &mut usize) -> Result<Frac, Passed>
    ensures { result ≡ product_from (at values.now node) zero_ℚ costs.now }
{
    let mut sum = Frac::zero();
    for term in costs {
        sum = sum.add_product(term.value, values.get_near(node, term.column, near))?;
    }
    Ok(sum)
}

/// The sum, and a node's total times the cost of its values.
fn add_node(
    scenarios: &[Scenario],
    costs: &[Term],
    values: &Values,
    node: u64,
    near: &mut usize,
    sum: Frac,
) -> Result<Frac, Passed>
    ensures { result ≡ cost_step (scenarios_content scenarios.now) costs.now (at values.now node) node sum }
{
    let cost = node_cost(costs, values, node, near)?;
    let total = total(scenarios, node)?;
    sum.add_product(total, cost)
}

/// The total times the node's cost, added up by node.
fn add_nodes(program: &Program, values: &Values) -> Result<Frac, Passed>
    ensures { result ≡ costs_walk (view_of (content program.now)) (at values.now) }
{
    let mut sum = Frac::zero();
    let mut near = 0;
    for (place, slot) in program.nodes.iter().enumerate() {
        if let Some(node) = slot {
            let costs = node.cost.terms();
            sum = add_node(
                &program.scenarios,
                costs,
                values,
                place as u64,
                &mut near,
                sum,
            )?;
        }
    }
    Ok(sum)
}

/// The sum, and a total times the cost of a node's values.
fn add_cost(
    total: Frac,
    costs: &[Term],
    values: &Values,
    node: u64,
    near: &mut usize,
    sum: Frac,
) -> Result<Frac, Passed>
    ensures { result ≡ cost_step_with total costs.now (at values.now node) sum }
{
    let cost = node_cost(costs, values, node, near)?;
    sum.add_product(total, cost)
}

/// The totals, which are known, times the nodes' costs, added up by node.
fn add_costs(program: &Program, totals: &[Frac], values: &Values) -> Result<Frac, Passed>
    ensures { result ≡ costs_with (view_of (content program.now)) totals.now (at values.now) }
{
    let mut sum = Frac::zero();
    let mut near = 0;
    for (place, slot) in program.nodes.iter().enumerate() {
        if let Some(node) = slot {
            let costs = node.cost.terms();
            let total = number_at(totals, place);
            sum = add_cost(total, costs, values, place as u64, &mut near, sum)?;
        }
    }
    Ok(sum)
}

/// The totals by node, each by itself, and then the costs of the nodes.
fn cost_by_walk(program: &Program, values: &Values) -> Result<Frac, Passed>
    ensures { result ≡ cost_walk (view_of (content program.now)) (at values.now) }
{
    totals(program)?;
    add_nodes(program, values)
}

/// The totals by node, and then the costs of the nodes.
pub(crate) fn cost_of(
    alloc: Global,
    program: &Program,
    values: &Values,
) -> Result<Result<Frac, Passed>, Memory>
    ensures { IfOk result (λ cost. cost ≡ cost_walk (view_of (content program.now)) (at values.now)) }
{
    match all_totals(alloc, program) {
        Ok(totals) => Ok(add_costs(program, totals.as_slice(), values)),
        Err(Unfinished::Walk) => Ok(cost_by_walk(program, values)),
        Err(Unfinished::Memory) => Err(Memory),
    }
}

/// What a policy costs: over scenarios and stages, the probability times the cost of the node's values, added.
///
/// First come the totals by node; then by node the sum by column of cost times value, the total times
/// that sum, and its addition. `Passed` has place `Check` and names the first operation that passes.
///
/// The totals are taken in one pass over the scenarios' paths, and by node only where an operation passes.
pub fn cost(alloc: Global, program: &Program, policy: &Values) -> Result<Frac, Halt>
    ensures { Answers (cost_walk (view_of (content program.now)) (at policy.now)) result }
{
    match cost_of(alloc, program, policy) {
        Ok(Ok(cost)) => Ok(cost),
        Ok(Err(passed)) => Err(Halt::Passed(Place::Check, passed)),
        Err(_memory) => Err(Halt::Memory),
    }
}
