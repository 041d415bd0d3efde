//! Scenarios that are stated one by one.
ghost use Rattle.std.specs.Prelude.{◌≡◌, [], map, get_or, length, IfOk, OnOk, MatchResult};
ghost use Rattle.stoch_defs.specs.Random.{branch_content};
ghost use Rattle.build_defs.specs.Scenarios.{stages_from};
ghost use Rattle.tree_build.specs.Numbering.{rows_content};
ghost use Rattle.tree_build.specs.Branches.{key_above, branch_key, branch_rows};

use crate::numbering::Keys;
use std::alloc::{AllocError, Global};
use stoch_defs::Branch;

/// The key of that scenario at a stage, 0 where there is none.
fn key_at(rows: &[Keys], number: usize, stage: usize) -> u64
    ensures { result ≡ get_or (get_or (rows_content rows.now) number []) stage 0 }
{
    if number < rows.len() {
        let row: &[u64] = &rows[number].by_stage;
        if stage < row.len() { row[stage] } else { 0 }
    } else {
        0
    }
}

/// The key of a scenario's parent at a stage: 0 on the core's own path.
fn key_above(rows: &[Keys], parent: Option<u32>, stage: usize) -> u64
    ensures { result ≡ key_above (rows_content rows.now) parent stage }
{
    match parent {
        None => 0,
        Some(number) => key_at(rows, number as usize, stage),
    }
}

/// The key of a scenario at a stage: its own from its branch period on, before it its parent's.
fn branch_key(rows: &[Keys], branch: &Branch, own: u64, stage: usize) -> u64
    ensures { result ≡ branch_key (rows_content rows.now) (branch_content branch.now) own stage }
{
    if stage < branch.stage as usize {
        key_above(rows, branch.parent, stage)
    } else {
        own
    }
}

/// The keys of a scenario at the stages, of which there are so many.
fn branch_row(
    alloc: Global,
    rows: &[Keys],
    branch: &Branch,
    own: u64,
    count: usize,
) -> Result<Vec<u64>, AllocError>
    ensures { IfOk result (λ row. row.items ≡ map (branch_key (rows_content rows.now) (branch_content branch.now) own)
        (stages_from 0 count)) }
{
    let mut row = Vec::new(alloc);
    for stage in 0..count {
        row.push(branch_key(rows, branch, own, stage))?;
    }
    Ok(row)
}

/// The keys of all scenarios. The key of a node is one more than the number of the scenario whose own it
/// is, and 0 on the core's own path.
pub(crate) fn branch_rows(
    alloc: Global,
    branches: &[Branch],
    count: usize,
) -> Result<Vec<Keys>, AllocError>
    ensures { IfOk result (λ rows. rows_content rows.items ≡ branch_rows count [] (map branch_content branches.now)) }
{
    let mut rows = Vec::new(alloc);
    for (number, branch) in branches.iter().enumerate() {
        let own = number as u64 + 1;
        let by_stage = branch_row(alloc, &rows, branch, own, count)?;
        rows.push(Keys { by_stage })?;
    }
    Ok(rows)
}
