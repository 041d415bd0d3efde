// A PROB in place.
ghost use Rattle.std.specs.Prelude.{◌≡◌, None, Some, OnOk, OnErr, MatchResult, Ok, map};
ghost use Rattle.scen_defs.specs.Program.{content, nodes_content, scenarios_content};
ghost use Rattle.scen_tree.specs.Trees.{position_of};
ghost use Rattle.edit_defs.specs.declared.edit.Edit.TheVariants.{Prob};
ghost use Rattle.edit_defs.specs.After.{after};
ghost use Rattle.edit_defs.specs.Causes.{passing, refused};
ghost use Rattle.edit_defs.specs.Operations.{first_passed};
ghost use Rattle.frac128.specs.Faults.{FaultOf};
ghost use Rattle.edit_apply.specs.Faults.{ApplyFaultOf};
ghost use Rattle.edit_chances.specs.Scaled.{tested_walk};
ghost use Rattle.edit_apply.specs.Told.{prob_told};

use crate::facts::{is_inner, is_known, is_last};
use crate::fault::{ApplyFault, refusal};
use crate::positions::add_positions;
use core_defs::Cause;
use edit_chances::{fits_all_trees, prob_scenarios, test_tree};
use frac128::{ArithmeticFault, Frac};
use scen_defs::{Node, Program, Scenario};
use smps_words::Name;
use std::alloc::Global;

/// Tests the totals and the shares of the nodes, where it isn't seen without them that none passes.
fn test_nodes(
    alloc: Global,
    nodes: &[Option<Node>],
    scenarios: &[Scenario],
) -> Result<(), ArithmeticFault>
    ensures { MatchResult result (λ _. tested_walk (map position_of (nodes_content nodes.now)) (scenarios_content scenarios.now)
        ≡ Ok (scenarios_content scenarios.now))
        (FaultOf (tested_walk (map position_of (nodes_content nodes.now)) (scenarios_content scenarios.now))) }
{
    if fits_all_trees(scenarios) {
        return Ok(());
    }
    let mut positions = Vec::new(alloc);
    add_positions(&mut positions, nodes)?;
    test_tree(alloc, &positions, scenarios)
}

/// The scenarios after a PROB, where no operation passes.
fn tested_prob(
    alloc: Global,
    program: &Program,
    name: &Name,
    probability: Frac,
) -> Result<Vec<Scenario>, ArithmeticFault>
    ensures { MatchResult result (λ all. prob_told (content program.now) name.now probability ≡ Ok (scenarios_content all.items))
        (FaultOf (prob_told (content program.now) name.now probability)) }
{
    let scenarios = prob_scenarios(alloc, &program.scenarios, name, probability)?;
    test_nodes(alloc, &program.nodes, &scenarios)?;
    Ok(scenarios)
}

/// The tests before the operations.
fn test_prob(program: &Program, name: &Name, probability: Frac) -> Result<(), Cause>
    ensures { MatchResult result (λ _. refused (content program.now) (Prob name.now probability)
        ≡ passing (first_passed (content program.now) (Prob name.now probability)))
        (λ cause. refused (content program.now) (Prob name.now probability) ≡ Some cause) }
{
    if !is_known(&program.scenarios, name) {
        return Err(Cause::ScenarioUnknown);
    }
    if !is_inner(probability) {
        return Err(Cause::EditProbability);
    }
    if is_last(&program.scenarios) {
        return Err(Cause::LastScenario);
    }
    Ok(())
}

/// Gives a scenario another probability in place, or says why not.
pub(crate) fn apply_prob(
    alloc: Global,
    program: &mut Program,
    name: &Name,
    probability: Frac,
) -> Result<(), ApplyFault>
    ensures ok { OnOk result (content program.new ≡ after (content program.old) (Prob name.now probability)) }
    ensures cause { MatchResult result (λ _. refused (content program.old) (Prob name.now probability) ≡ None)
        (ApplyFaultOf (refused (content program.old) (Prob name.now probability))) }
    ensures same { OnErr result (content program.new ≡ content program.old) }
{
    test_prob(program, name, probability)?;
    match tested_prob(alloc, program, name, probability) {
        Ok(scenarios) => {
            program.scenarios = scenarios;
            Ok(())
        }
        Err(fault) => Err(refusal(fault)),
    }
}
