// A DROP in place.
ghost use Rattle.std.specs.Prelude.{◌≡◌, None, Some, OnOk, OnErr, MatchResult, IfOk, Ok, map};
ghost use Rattle.scen_defs.specs.Program.{content, nodes_content, scenarios_content};
ghost use Rattle.scen_tree.specs.Trees.{position_of};
ghost use Rattle.scen_defs.specs.Valid.{IsProgram};
ghost use Rattle.edit_defs.specs.declared.edit.Edit.TheVariants.{Drop};
ghost use Rattle.edit_defs.specs.After.{after};
ghost use Rattle.edit_defs.specs.Causes.{passing, refused};
ghost use Rattle.edit_defs.specs.Limits.{counts};
ghost use Rattle.edit_defs.specs.Operations.{first_passed};
ghost use Rattle.edit_apply.specs.Kept.{kept_from};
ghost use Rattle.frac128.specs.Faults.{FaultOf};
ghost use Rattle.edit_apply.specs.Faults.{ApplyFaultOf};
ghost use Rattle.edit_chances.specs.Scaled.{tested_walk};
ghost use Rattle.edit_apply.specs.Told.{drop_told, marks_by};

use crate::facts::{is_known, is_last};
use crate::fault::{ApplyFault, refusal};
use crate::kept::{keep, kept_counts, kept_positions, reached};
use core_defs::Cause;
use edit_chances::{drop_scenarios, fits_all_trees, test_tree};
use edit_defs::Counts;
use frac128::ArithmeticFault;
use scen_defs::{Node, Program, Scenario};
use smps_words::Name;
use std::alloc::Global;

/// What is left where a scenario goes.
#[derive(Drop)]
struct Left {
    scenarios: Vec<Scenario>,
    /// Whether a scenario that is left passes the node.
    marks: Vec<bool>,
}

/// Tests the totals and the shares of the nodes that are kept, where it isn't seen without them that none passes.
fn test_kept(
    alloc: Global,
    nodes: &[Option<Node>],
    marks: &[bool],
    scenarios: &[Scenario],
) -> Result<(), ArithmeticFault>
    ensures { MatchResult result (λ _. tested_walk (map position_of (kept_from marks.now 0 (nodes_content nodes.now)))
        (scenarios_content scenarios.now) ≡ Ok (scenarios_content scenarios.now))
        (FaultOf (tested_walk (map position_of (kept_from marks.now 0 (nodes_content nodes.now))) (scenarios_content scenarios.now))) }
{
    if fits_all_trees(scenarios) {
        return Ok(());
    }
    let positions = kept_positions(alloc, nodes, marks)?;
    test_tree(alloc, &positions, scenarios)
}

/// What a DROP leaves, where no operation passes.
fn tested_drop(alloc: Global, program: &Program, name: &Name) -> Result<Left, ArithmeticFault>
    ensures scenarios { MatchResult result (λ left. drop_told (content program.now) name.now
        ≡ Ok (scenarios_content left.scenarios.items))
        (FaultOf (drop_told (content program.now) name.now)) }
    ensures marks { IfOk result (λ left. left.marks.items
        ≡ marks_by (scenarios_content left.scenarios.items) (content program.now).nodes) }
{
    let scenarios = drop_scenarios(alloc, &program.scenarios, name)?;
    let marks = reached(alloc, &program.nodes, &scenarios)?;
    test_kept(alloc, &program.nodes, &marks, &scenarios)?;
    Ok(Left { scenarios, marks })
}

/// The tests before the operations.
fn test_drop(program: &Program, name: &Name) -> Result<(), Cause>
    ensures { MatchResult result (λ _. refused (content program.now) (Drop name.now)
        ≡ passing (first_passed (content program.now) (Drop name.now)))
        (λ cause. refused (content program.now) (Drop name.now) ≡ Some cause) }
{
    if !is_known(&program.scenarios, name) {
        return Err(Cause::ScenarioUnknown);
    }
    if is_last(&program.scenarios) {
        return Err(Cause::LastScenario);
    }
    Ok(())
}

/// Leaves what a DROP leaves.
fn leave(program: &mut Program, left: Left)
    requires { IsProgram (record (content program.old) {
      nodes = kept_from left.marks.items 0 (content program.old).nodes;
      scenarios = scenarios_content left.scenarios.items;
    }) }
    ensures { content program.new ≡ record (content program.old) {
      nodes = kept_from left.marks.items 0 (content program.old).nodes;
      scenarios = scenarios_content left.scenarios.items;
    } }
{
    keep(&mut program.nodes, &left.marks);
    program.scenarios = left.scenarios;
}

/// Drops a scenario and the nodes that no other one passes, in place, or says why not.
pub(crate) fn apply_drop(
    alloc: Global,
    program: &mut Program,
    counted: &mut Counts,
    name: &Name,
) -> Result<(), ApplyFault>
    requires counted { counted.old ≡ counts (content program.old).nodes }
    ensures ok { OnOk result (content program.new ≡ after (content program.old) (Drop name.now)) }
    ensures cause { MatchResult result (λ _. refused (content program.old) (Drop name.now) ≡ None)
        (ApplyFaultOf (refused (content program.old) (Drop name.now))) }
    ensures same { OnErr result (content program.new ≡ content program.old) }
    ensures counted { counted.new ≡ counts (content program.new).nodes }
{
    test_drop(program, name)?;
    match tested_drop(alloc, program, name) {
        Ok(left) => {
            let all = kept_counts(&program.nodes, &left.marks)?;
            leave(program, left);
            *counted = all;
            Ok(())
        }
        Err(fault) => Err(refusal(fault)),
    }
}
