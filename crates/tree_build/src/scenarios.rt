//! The scenarios of a program.
ghost use Rattle.std.specs.Prelude.{◌≡◌, [], Ok, map, length, get_or, IfOk, MatchResult};
ghost use Rattle.rationals.specs.Rational.{one_ℚ};
ghost use Rattle.stoch_defs.specs.Random.{block_content, branch_content};
ghost use Rattle.scen_defs.specs.Program.{scenarios_content};
ghost use Rattle.smps_build.specs.Faults.{BuildFaultOf};
ghost use Rattle.build_defs.specs.Built.{product_from};
ghost use Rattle.build_defs.specs.Scenarios.{no_branch};
ghost use Rattle.tree_build.specs.Wheels.{product, sizes_of};
ghost use Rattle.tree_build.specs.Numbering.{paths_content};
ghost use Rattle.tree_build.specs.Choices.{chances_of};
ghost use Rattle.tree_build.specs.Nodes.{digits_at};
ghost use Rattle.tree_build.specs.Finish.{block_paths, branch_paths};

use crate::choices::chance;
use crate::names::numbered;
use crate::nodes::digits_at;
use crate::numbering::Path;
use crate::wheels::Wheel;
use frac128::Frac;
use scen_defs::Scenario;
use smps_build::{BuildFault, copied};
use smps_words::Name;
use std::alloc::{AllocError, Global};
use stoch_defs::{Block, Branch};

/// The probability of a scenario; or the first product that passes.
fn block_chance(
    alloc: Global,
    blocks: &[Block],
    wheels: &[Wheel],
    count: usize,
    number: usize,
) -> Result<Frac, BuildFault>
    requires { count ≡ product (sizes_of wheels.now) }
    ensures { MatchResult result (λ chance. product_from one_ℚ
        (chances_of (map block_content blocks.now) wheels.now (digits_at (sizes_of wheels.now) number)) ≡ Ok chance)
        (BuildFaultOf (product_from one_ℚ (chances_of (map block_content blocks.now) wheels.now
        (digits_at (sizes_of wheels.now) number)))) }
{
    let digits = digits_at(alloc, wheels, count, number)?;
    let probability = chance(blocks, wheels, &digits)?;
    Ok(probability)
}

/// The scenarios of blocks, with their paths; or the first product that passes.
pub(crate) fn block_scenarios(
    alloc: Global,
    blocks: &[Block],
    wheels: &[Wheel],
    count: usize,
    paths: Vec<Path>,
) -> Result<Vec<Scenario>, BuildFault>
    requires { count ≡ product (sizes_of wheels.now) }
    ensures { MatchResult result (λ all. block_paths (map block_content blocks.now) wheels.now [] (paths_content paths.items)
        ≡ Ok (scenarios_content all.items))
        (BuildFaultOf (block_paths (map block_content blocks.now) wheels.now [] (paths_content paths.items))) }
{
    let mut all = Vec::with_capacity(alloc, paths.len())?;
    for found in paths {
        let number = all.len();
        let Path { nodes } = found;
        let probability = block_chance(alloc, blocks, wheels, count, number)?;
        let name = numbered(alloc, number as u64 + 1)?;
        all.push(Scenario {
            name,
            probability,
            path: nodes,
        })?;
    }
    Ok(all)
}

/// The name of a scenario, empty past the last one.
fn name_at(alloc: Global, branches: &[Branch], number: usize) -> Result<Name, AllocError>
    ensures { IfOk result (λ name. name ≡ (get_or (map branch_content branches.now) number no_branch).name) }
{
    if number < branches.len() {
        copied(alloc, &branches[number].name)
    } else {
        Name::new(alloc, b"")
    }
}

/// The probability of a scenario, 0 past the last one.
fn probability_at(branches: &[Branch], number: usize) -> Frac
    ensures { result ≡ (get_or (map branch_content branches.now) number no_branch).probability }
{
    if number < branches.len() {
        branches[number].probability
    } else {
        Frac::zero()
    }
}

/// The scenarios that are stated, with their paths; or the first product that passes.
pub(crate) fn branch_scenarios(
    alloc: Global,
    branches: &[Branch],
    paths: Vec<Path>,
) -> Result<Vec<Scenario>, BuildFault>
    ensures { MatchResult result (λ all. branch_paths (map branch_content branches.now) [] (paths_content paths.items)
        ≡ Ok (scenarios_content all.items))
        (BuildFaultOf (branch_paths (map branch_content branches.now) [] (paths_content paths.items))) }
{
    let mut all = Vec::with_capacity(alloc, paths.len())?;
    for found in paths {
        let number = all.len();
        let Path { nodes } = found;
        let probability = Frac::one().mul(probability_at(branches, number))?;
        let name = name_at(alloc, branches, number)?;
        all.push(Scenario {
            name,
            probability,
            path: nodes,
        })?;
    }
    Ok(all)
}
