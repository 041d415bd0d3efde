// An ADD in place.
ghost use Rattle.std.specs.Prelude.{◌≡◌, ◌+◌, ◌<◌, ◌^◌, ◌++◌, ◌&&◌, ltb, false, length, map};
ghost use Rattle.std.specs.Prelude.{None, Some, OnOk, OnErr, IfOk, MatchResult, Ok};
ghost use Rattle.scen_defs.specs.Program.{content, nodes_content, scenario_content, scenarios_content};
ghost use Rattle.smps_words.specs.Field.{IsField};
ghost use Rattle.scen_defs.specs.Valid.{IsProgram};
ghost use Rattle.edit_defs.specs.declared.edit.Edit.TheVariants.{Add};
ghost use Rattle.edit_defs.specs.After.{after, is_known, new_scenario};
ghost use Rattle.edit_defs.specs.Causes.{refused};
ghost use Rattle.edit_defs.specs.Limits.{counts};
ghost use Rattle.frac128.specs.Faults.{FaultOf};
ghost use Rattle.edit_apply.specs.Faults.{ApplyFaultOf};
ghost use Rattle.edit_apply.specs.Rest.{KeepsWith, add_left, add_rest};
ghost use Rattle.edit_chances.specs.Scaled.{tested_walk};
ghost use Rattle.edit_apply.specs.Told.{add_told, new_nodes};
ghost use Rattle.scen_tree.specs.Trees.{position_of};

use crate::copies::{copies, first_new, new_path};
use crate::counts::{count, is_above, plus};
use crate::facts::{is_inner, is_known};
use crate::fault::{ApplyFault, refusal};
use crate::positions::add_positions;
use core_defs::Cause;
use edit_chances::{add_scenarios, fits_all_trees, test_tree};
use edit_defs::{Counts, path};
use frac128::{ArithmeticFault, Frac, Memory};
use scen_defs::{Node, Program, Scenario};
use smps_words::Name;
use std::alloc::Global;

/// The new scenario.
fn new_scenario(
    alloc: Global,
    program: &Program,
    name: &Name,
    parent: &Name,
    probability: Frac,
    stage: u32,
) -> Result<Scenario, Memory>
    ensures { IfOk result (λ new. scenario_content new ≡ new_scenario (content program.now) name.now parent.now probability stage) }
{
    let name = Name::new(alloc, name.as_bytes())?;
    let above = path(program, parent);
    let first = first_new(&program.nodes)?;
    let path = new_path(alloc, stage, first, above)?;
    Ok(Scenario {
        name,
        probability,
        path,
    })
}

/// The new nodes.
fn new_nodes(
    alloc: Global,
    program: &Program,
    parent: &Name,
    stage: u32,
) -> Result<Vec<Option<Node>>, Memory>
    ensures nodes { IfOk result (λ new. nodes_content new.items ≡ new_nodes (content program.now) parent.now stage) }
    ensures room { OnOk result (length (content program.now).nodes + 16 < 2 ^ 32) }
{
    let above = path(program, parent);
    let first = first_new(&program.nodes)?;
    copies(alloc, &program.nodes, stage, first, above)
}

/// Tests the totals and the shares of the nodes with the new ones, where it isn't seen without them that none passes.
fn test_grown(
    alloc: Global,
    nodes: &[Option<Node>],
    more: &[Option<Node>],
    scenarios: &[Scenario],
) -> Result<(), ArithmeticFault>
    ensures { MatchResult result (λ _. tested_walk (map position_of (nodes_content nodes.now) ++ map position_of (nodes_content more.now))
        (scenarios_content scenarios.now) ≡ Ok (scenarios_content scenarios.now))
        (FaultOf (tested_walk (map position_of (nodes_content nodes.now) ++ map position_of (nodes_content more.now))
        (scenarios_content scenarios.now))) }
{
    if fits_all_trees(scenarios) {
        return Ok(());
    }
    let mut positions = Vec::new(alloc);
    add_positions(&mut positions, nodes)?;
    add_positions(&mut positions, more)?;
    test_tree(alloc, &positions, scenarios)
}

/// The scenarios after an ADD of a scenario with these new nodes, where no operation passes.
fn tested_add(
    alloc: Global,
    program: &Program,
    new: Scenario,
    nodes: &[Option<Node>],
) -> Result<Vec<Scenario>, ArithmeticFault>
    ensures { MatchResult result (λ all. add_told (content program.now) (scenario_content new) (nodes_content nodes.now)
        ≡ Ok (scenarios_content all.items))
        (FaultOf (add_told (content program.now) (scenario_content new) (nodes_content nodes.now))) }
{
    let scenarios = add_scenarios(alloc, &program.scenarios, new)?;
    test_grown(alloc, &program.nodes, nodes, &scenarios)?;
    Ok(scenarios)
}

/// Adds nodes, and puts other scenarios in place of those that are there.
#[tactic(auto, using(scen_defs::proofs::Contents::nodes_append))]
fn extend(
    program: &mut Program,
    nodes: Vec<Option<Node>>,
    scenarios: Vec<Scenario>,
) -> Result<(), Memory>
    requires { IsProgram (record (content program.old) {
      nodes = (content program.old).nodes ++ nodes_content nodes.items;
      scenarios = scenarios_content scenarios.items;
    }) }
    ensures ok { OnOk result (content program.new ≡ record (content program.old) {
      nodes = (content program.old).nodes ++ nodes_content nodes.items;
      scenarios = scenarios_content scenarios.items;
    }) }
    ensures same { OnErr result (content program.new ≡ content program.old) }
{
    let mut nodes = nodes;
    program.nodes.append(&mut nodes)?;
    program.scenarios = scenarios;
    Ok(())
}

/// Adds a scenario whose names, probability and period are tested.
fn add(
    alloc: Global,
    program: &mut Program,
    counted: &mut Counts,
    new: Scenario,
    nodes: Vec<Option<Node>>,
) -> Result<(), ApplyFault>
    requires keeps { KeepsWith (content program.old) (scenario_content new) (nodes_content nodes.items) }
    requires counted { counted.old ≡ counts (content program.old).nodes }
    ensures scenarios { OnOk result (add_told (content program.old) (scenario_content new) (nodes_content nodes.items)
        ≡ Ok (content program.new).scenarios) }
    ensures rest { OnOk result (content program.new ≡ record (content program.old) {
      nodes = (content program.old).nodes ++ nodes_content nodes.items;
      scenarios = (content program.new).scenarios;
    }) }
    ensures cause { MatchResult result (λ _. add_rest (content program.old) (scenario_content new) (nodes_content nodes.items) ≡ None)
        (ApplyFaultOf (add_rest (content program.old) (scenario_content new) (nodes_content nodes.items))) }
    ensures same { OnErr result (content program.new ≡ content program.old) }
    ensures counted { counted.new ≡ counts (content program.new).nodes }
{
    let more = count(&nodes)?;
    let all = plus(*counted, more)?;
    if is_above(&program.scenarios, all) {
        return Err(ApplyFault::Refused(Cause::ScenarioLimit));
    }
    match tested_add(alloc, program, new, &nodes) {
        Ok(scenarios) => {
            extend(program, nodes, scenarios)?;
            *counted = all;
            Ok(())
        }
        Err(fault) => Err(refusal(fault)),
    }
}

/// The tests before the limits and the operations.
fn test_add(
    program: &Program,
    name: &Name,
    parent: &Name,
    probability: Frac,
    stage: u32,
) -> Result<(), Cause>
    ensures cause { MatchResult result (λ _. refused (content program.now) (Add name.now parent.now probability stage)
        ≡ add_left (content program.now) (Add name.now parent.now probability stage))
        (λ cause. refused (content program.now) (Add name.now parent.now probability stage) ≡ Some cause) }
    ensures new { OnOk result (is_known name.now (content program.now).scenarios ≡ false) }
{
    if is_known(&program.scenarios, name) {
        return Err(Cause::NameTaken);
    }
    if !is_known(&program.scenarios, parent) {
        return Err(Cause::ScenarioUnknown);
    }
    if !is_inner(probability) {
        return Err(Cause::EditProbability);
    }
    if !is_behind_first(&program.periods, stage) {
        return Err(Cause::BranchPeriod);
    }
    Ok(())
}

/// Whether the stage is that of a period behind the first.
fn is_behind_first(periods: &[Name], stage: u32) -> bool
    ensures { result ≡ (ltb 0 stage && ltb stage (length periods.now)) }
{
    0 < stage && (stage as usize) < periods.len()
}

/// Adds a scenario in place, or says why not.
pub(crate) fn apply_add(
    alloc: Global,
    program: &mut Program,
    counted: &mut Counts,
    name: &Name,
    parent: &Name,
    probability: Frac,
    stage: u32,
) -> Result<(), ApplyFault>
    requires field { IsField name.now }
    requires counted { counted.old ≡ counts (content program.old).nodes }
    ensures ok { OnOk result (content program.new ≡ after (content program.old) (Add name.now parent.now probability stage)) }
    ensures cause { MatchResult result (λ _. refused (content program.old) (Add name.now parent.now probability stage) ≡ None)
        (ApplyFaultOf (refused (content program.old) (Add name.now parent.now probability stage))) }
    ensures same { OnErr result (content program.new ≡ content program.old) }
    ensures counted { counted.new ≡ counts (content program.new).nodes }
{
    test_add(program, name, parent, probability, stage)?;
    let new = new_scenario(alloc, program, name, parent, probability, stage)?;
    let nodes = new_nodes(alloc, program, parent, stage)?;
    add(alloc, program, counted, new, nodes)
}
