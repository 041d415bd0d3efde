// The scenarios after an edit.
ghost use Rattle.std.specs.Prelude.{◌≡◌, MatchResult, Ok};
ghost use Rattle.rationals.specs.Rational.{one_ℚ};
ghost use Rattle.scen_defs.specs.Program.{scenario_content, scenarios_content};
ghost use Rattle.frac128.specs.Faults.{FaultOf};
ghost use Rattle.edit_chances.specs.Scaled.{add_walk_from, drop_walk, prob_walk, rest_walk, tested_walk};

use crate::scaled::{Scale, quotient, rescaled};
use edit_defs::probability;
use frac128::{ArithmeticFault, Frac, Passed};
use scen_defs::Scenario;
use scen_tree::{Position, node_chances};
use smps_words::Name;
use std::alloc::Global;

/// What a scenario leaves to the others.
fn rest(scenarios: &[Scenario], name: &Name) -> Result<Frac, Passed>
    ensures { result ≡ rest_walk name.now (scenarios_content scenarios.now) }
{
    Frac::one().sub(probability(scenarios, name))
}

/// The scenarios where one gets that probability.
pub fn prob_scenarios(
    alloc: Global,
    scenarios: &[Scenario],
    name: &Name,
    probability: Frac,
) -> Result<Vec<Scenario>, ArithmeticFault>
    ensures { MatchResult result (λ all. prob_walk (scenarios_content scenarios.now) name.now probability
        ≡ Ok (scenarios_content all.items))
        (FaultOf (prob_walk (scenarios_content scenarios.now) name.now probability)) }
{
    let left = Frac::one().sub(probability)?;
    let rest = rest(scenarios, name)?;
    let factor = quotient(left, rest)?;
    rescaled(
        alloc,
        scenarios,
        name,
        Some(probability),
        Scale::Times(factor),
    )
}

/// The scenarios where one goes.
pub fn drop_scenarios(
    alloc: Global,
    scenarios: &[Scenario],
    name: &Name,
) -> Result<Vec<Scenario>, ArithmeticFault>
    ensures { MatchResult result (λ all. drop_walk (scenarios_content scenarios.now) name.now ≡ Ok (scenarios_content all.items))
        (FaultOf (drop_walk (scenarios_content scenarios.now) name.now)) }
{
    let rest = rest(scenarios, name)?;
    rescaled(alloc, scenarios, name, None, Scale::Over(rest))
}

/// The scenarios with a further one.
pub fn add_scenarios(
    alloc: Global,
    scenarios: &[Scenario],
    new: Scenario,
) -> Result<Vec<Scenario>, ArithmeticFault>
    ensures { MatchResult result (λ all. add_walk_from (scenarios_content scenarios.now) (scenario_content new)
        ≡ Ok (scenarios_content all.items))
        (FaultOf (add_walk_from (scenarios_content scenarios.now) (scenario_content new))) }
{
    let left = Frac::one().sub(new.probability)?;
    let mut all = rescaled(alloc, scenarios, &new.name, None, Scale::Times(left))?;
    all.push(new)?;
    Ok(all)
}

/// Tests the totals and the shares of nodes that stand so.
pub fn test_tree(
    alloc: Global,
    positions: &[Position],
    scenarios: &[Scenario],
) -> Result<(), ArithmeticFault>
    ensures { MatchResult result (λ _. tested_walk positions.now (scenarios_content scenarios.now)
        ≡ Ok (scenarios_content scenarios.now))
        (FaultOf (tested_walk positions.now (scenarios_content scenarios.now))) }
{
    if positions.len() > u32::MAX as usize {
        return Err(ArithmeticFault::Memory);
    }
    let _chances = node_chances(alloc, positions, scenarios)?;
    Ok(())
}
