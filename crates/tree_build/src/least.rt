//! What nodes have at least: it is counted before they are made.
ghost use Rattle.std.specs.Prelude.{◌≡◌, [], true, get_or, map, MatchOption, IfOk};
ghost use Rattle.core_defs.specs.declared.program.Core.{Core};
ghost use Rattle.time_defs.specs.Means.{Stages};
ghost use Rattle.stoch_defs.specs.Random.{case_content, block_content, branch_content};
ghost use Rattle.build_defs.specs.Scenarios.{no_branch};
ghost use Rattle.tree_build.specs.Numbering.{paths_content};
ghost use Rattle.tree_build.specs.Values.{all_content};
ghost use Rattle.tree_build.specs.Limits.{rows_in, IsOverWith, counts_with, AreSmall, are_over};
ghost use Rattle.tree_build.specs.Nodes.{no_values, branch_nodes};
ghost use Rattle.tree_build.specs.Least.{TakesNone, SetsTakeNone, CasesTakeNone, BlocksTakeNone, core_nodes, source_rows};

use crate::limits::{Counts, added, with_node};
use crate::nodes::node_in;
use crate::numbering::{Debut, Path};
use crate::parts::Values;
use frac128::Frac;
use smps_words::Entry;
use std::alloc::{AllocError, Global};
use stoch_defs::{Block, Branch, Case};

/// Whether there are no fewer costs and entries where the entry is set.
fn takes_none(entry: Entry, value: Frac) -> bool
    ensures { result ≡ true → TakesNone entry value }
{
    match entry {
        Entry::Cost { column: _ } => !value.is_zero(),
        Entry::Matrix { row: _, column: _ } => !value.is_zero(),
        Entry::Rhs { row: _ } => true,
    }
}

fn sets_take_none(sets: &[(Entry, Frac)]) -> bool
    ensures { result ≡ true → SetsTakeNone sets.now }
{
    for pair in sets {
        let (entry, value) = *pair;
        if !takes_none(entry, value) {
            return false;
        }
    }
    true
}

fn cases_take_none(cases: &[Case]) -> bool
    ensures { result ≡ true → CasesTakeNone (map case_content cases.now) }
{
    for case in cases {
        if !sets_take_none(&case.sets) {
            return false;
        }
    }
    true
}

/// Whether no case of the blocks takes a cost or an entry away.
pub(crate) fn blocks_take_none(blocks: &[Block]) -> bool
    ensures { result ≡ true → BlocksTakeNone (map block_content blocks.now) }
{
    for block in blocks {
        if !cases_take_none(&block.cases) {
            return false;
        }
    }
    true
}

/// The counts with those of the core's values of that stage, where none of them is too much.
fn with_stage(counts: Counts, base: &[Values], stage: usize) -> Option<Counts>
    requires { AreSmall counts }
    ensures { MatchOption result (IsOverWith counts (get_or (all_content base.now) stage no_values))
        (λ sum. (sum ≡ counts_with counts (get_or (all_content base.now) stage no_values)) × AreSmall sum) }
{
    if stage < base.len() {
        with_node(counts, &base[stage])
    } else {
        Some(counts)
    }
}

/// Whether the nodes have too much by the values of the core alone.
pub(crate) fn is_core_over(base: &[Values], debuts: &[Debut]) -> bool
    ensures { result ≡ true → are_over (core_nodes (all_content base.now) debuts.now) ≡ true }
{
    let mut counts = Counts {
        entries: 0,
        rows: 0,
        costs: 0,
    };
    for debut in debuts {
        match with_stage(counts, base, debut.stage) {
            None => return true,
            Some(sum) => counts = sum,
        }
    }
    false
}

/// The rows of the core's values of a stage.
fn core_rows(base: &[Values], stage: usize) -> usize
    ensures { result ≡ rows_in (get_or (all_content base.now) stage no_values) }
{
    if stage < base.len() {
        base[stage].rows.len()
    } else {
        0
    }
}

/// The count in that place, 0 past the last one.
fn count_at(counts: &[usize], place: usize) -> usize
    ensures { result ≡ get_or counts.now place 0 }
{
    if place < counts.len() {
        counts[place]
    } else {
        0
    }
}

/// How many rows a scenario's parent has at a stage.
fn source_rows(
    base: &[Values],
    paths: &[Path],
    counts: &[usize],
    parent: Option<u32>,
    stage: usize,
) -> usize
    ensures { result ≡ source_rows (all_content base.now) (paths_content paths.now) counts.now parent stage }
{
    match parent {
        None => core_rows(base, stage),
        Some(number) => count_at(counts, node_in(paths, number as usize, stage) as usize),
    }
}

/// The parent of a scenario, none past the last one.
fn parent_of(branches: &[Branch], number: usize) -> Option<u32>
    ensures { result ≡ (get_or (map branch_content branches.now) number no_branch).parent }
{
    if number < branches.len() {
        branches[number].parent
    } else {
        None
    }
}

/// Whether the nodes of scenarios that are stated have too many rows.
pub(crate) fn are_rows_over(
    alloc: Global,
    base: &[Values],
    branches: &[Branch],
    paths: &[Path],
    debuts: &[Debut],
) -> Result<bool, AllocError>
    ensures { IfOk result (λ over. over ≡ true → (core : Core) (p : Stages) → are_over
        (branch_nodes core p (all_content base.now) (map branch_content branches.now) (paths_content paths.now) [] debuts.now) ≡ true) }
{
    let mut counts = Vec::with_capacity(alloc, debuts.len())?;
    let mut rows: usize = 0;
    for debut in debuts {
        let parent = parent_of(branches, debut.scenario);
        let own = source_rows(base, paths, &counts, parent, debut.stage);
        match added(rows, own) {
            None => return Ok(true),
            Some(sum) => rows = sum,
        }
        counts.push(own)?;
    }
    Ok(false)
}
