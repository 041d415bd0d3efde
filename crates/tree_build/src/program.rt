//! The program of a core, its periods and its scenarios.
ghost use Rattle.std.specs.Prelude.{◌≡◌, ◌<◌, ◌≤◌, ◌^◌, [], false, map, length, IfOk};
ghost use Rattle.time_defs.specs.Periods.{ArePeriods};
ghost use Rattle.stoch_defs.specs.Random.{block_content, branch_content, stoch_content};
ghost use Rattle.scen_defs.specs.Lists.{Each};
ghost use Rattle.smps_words.specs.Field.{IsField};
ghost use Rattle.build_defs.specs.Scenarios.{stages_from};
ghost use Rattle.time_defs.specs.Periods.{stages};
ghost use Rattle.tree_build.specs.Numbering.{rows_content};
ghost use Rattle.tree_build.specs.Wheels.{product, sizes_of, digits_of, key_row};
ghost use Rattle.tree_build.specs.Finish.{GivesPrograms};
ghost use Rattle.tree_build.specs.Law.{IsStaged, AreCases};
ghost use Rattle.tree_build.specs.Walks.{IsBuilt, block_rows, blocks_over, blocks_walk, branches_over, branches_walk, build_over};
ghost use Rattle.tree_build.specs.Walks.{build_walk};

use crate::base::base;
use crate::branches::branch_rows;
use crate::finish::{finish, positions};
use crate::nodes::{block_values, branch_values};
use crate::numbering::{Keys, Outline, number_all};
use crate::scenarios::{block_scenarios, branch_scenarios};
use crate::wheels::{Wheel, count_of, digits_of, key_row, wheels_of};
use core_defs::Core;
use scen_defs::Program;
use smps_build::BuildFault;
use std::alloc::{AllocError, Global};
use stoch_defs::{Block, Branch, Stoch};
use time_defs::Periods;

/// So many scenarios a program has at most.
const MOST_SCENARIOS: usize = 10_000;

/// The keys of all scenarios of blocks.
fn block_rows(
    alloc: Global,
    wheels: &[Wheel],
    stages: usize,
    count: usize,
) -> Result<Vec<Keys>, AllocError>
    requires { count ≡ product (sizes_of wheels.now) }
    ensures { IfOk result (λ rows. rows_content rows.items ≡ block_rows stages wheels.now) }
{
    let mut rows = Vec::with_capacity(alloc, count)?;
    for number in 0..count {
        let digits = digits_of(alloc, wheels, count, number)?;
        let by_stage = key_row(alloc, wheels, &digits, stages)?;
        rows.push(Keys { by_stage })?;
    }
    Ok(rows)
}

/// The program of blocks.
fn build_blocks(
    alloc: Global,
    core: &Core,
    periods: &Periods,
    blocks: &[Block],
) -> Result<Program, BuildFault>
    requires staged { IsStaged core.now (stages periods.now) }
    requires periods { ArePeriods (stages periods.now) }
    requires keeps { blocks_over core.now (stages periods.now) (map block_content blocks.now) ≡ false
        → GivesPrograms (blocks_walk core.now (stages periods.now) (map block_content blocks.now)) }
    ensures { IsBuilt (blocks_over core.now (stages periods.now) (map block_content blocks.now))
        (blocks_walk core.now (stages periods.now) (map block_content blocks.now)) result }
{
    let stages = periods.names.len();
    let wheels = wheels_of(alloc, blocks, stages)?;
    let count = count_of(&wheels);
    if count > MOST_SCENARIOS {
        return Err(BuildFault::Limit);
    }
    let rows = block_rows(alloc, &wheels, stages, count)?;
    let Outline { debuts, paths } = number_all(alloc, &rows)?;
    let base = base(alloc, core, periods)?;
    let values = block_values(alloc, core, periods, &base, blocks, &wheels, count, &debuts)?;
    let positions = positions(alloc, &paths, &debuts)?;
    let scenarios = block_scenarios(alloc, blocks, &wheels, count, paths)?;
    finish(alloc, core, periods, &debuts, &positions, scenarios, values)
}

/// The program of scenarios that are stated.
fn build_branches(
    alloc: Global,
    core: &Core,
    periods: &Periods,
    branches: &[Branch],
) -> Result<Program, BuildFault>
    requires staged { IsStaged core.now (stages periods.now) }
    requires periods { ArePeriods (stages periods.now) }
    requires keeps { branches_over core.now (stages periods.now) (map branch_content branches.now) ≡ false
        → GivesPrograms (branches_walk core.now (stages periods.now) (map branch_content branches.now)) }
    ensures { IsBuilt (branches_over core.now (stages periods.now) (map branch_content branches.now))
        (branches_walk core.now (stages periods.now) (map branch_content branches.now)) result }
{
    if branches.len() > MOST_SCENARIOS {
        return Err(BuildFault::Limit);
    }
    let stages = periods.names.len();
    let rows = branch_rows(alloc, branches, stages)?;
    let Outline { debuts, paths } = number_all(alloc, &rows)?;
    let base = base(alloc, core, periods)?;
    let values = branch_values(alloc, core, periods, &base, branches, &paths, &debuts)?;
    let positions = positions(alloc, &paths, &debuts)?;
    let scenarios = branch_scenarios(alloc, branches, paths)?;
    finish(alloc, core, periods, &debuts, &positions, scenarios, values)
}

/// The program on a tree that a core, its periods and its scenarios mean.
///
/// `Limit` where it has more than 10,000 scenarios, 20,000 nodes, or 10,000,000 entries, rows or costs over all
/// nodes, each by itself; otherwise the first operation that passes: the probabilities of the scenarios, the totals
/// and then the shares of the nodes, the intervals node by node and row by row. `Memory` where memory is wanting.
pub fn build(
    alloc: Global,
    core: &Core,
    periods: &Periods,
    stoch: &Stoch,
) -> Result<Program, BuildFault>
    requires staged { IsStaged core.now (stages periods.now) }
    requires periods { ArePeriods (stages periods.now) }
    requires names { Each IsField (stages periods.now).names }
    requires cases { AreCases (stages periods.now) (stoch_content stoch.now) }
    ensures { IsBuilt (build_over core.now (stages periods.now) (stoch_content stoch.now))
        (build_walk core.now (stages periods.now) (stoch_content stoch.now)) result }
{
    match stoch {
        Stoch::Blocks(blocks) => build_blocks(alloc, core, periods, blocks),
        Stoch::Scenarios(branches) => build_branches(alloc, core, periods, branches),
    }
}
