// How many entries the program has over all nodes.
ghost use Rattle.std.specs.Prelude.{◌≡◌, ◌+◌, IfOk, length, ltb, sum_by};
ghost use Rattle.edit_defs.specs.Limits.{place_counts, row_entries};
ghost use Rattle.scen_defs.specs.Program.{content, node_at};
ghost use Rattle.tail_risk.specs.TailProgram.{added_row, tail_entries, tail_place};
ghost use Rattle.tail_risk.specs.TailRow.{path_costs};
ghost use Rattle.tail_risk.specs.declared.rates.Rates.{Rates as RatesOf};

use crate::costs::last_stage;
use frac128::Memory;
use scen_defs::{NodeRow, Program};
use scen_nodes::{find, parent, stage};

/// So many entries a program has at most over all nodes.
const MOST_ENTRIES: u64 = 10_000_000;

/// A sum. One that passes 64 bits is more than any memory holds.
fn sum(one: u64, other: u64) -> Result<u64, Memory>
    ensures { IfOk result (λ sum. sum ≡ one + other) }
{
    match one.checked_add(other) {
        Some(sum) => Ok(sum),
        None => Err(Memory),
    }
}

/// The entries of rows.
fn entries_of(rows: &[NodeRow]) -> Result<u64, Memory>
    ensures { IfOk result (λ count. count ≡ sum_by row_entries rows.now) }
{
    let mut count = 0;
    for row in rows {
        count = sum(count, row.entries.len() as u64)?;
    }
    Ok(count)
}

/// How many costs a node has.
fn cost_count(program: &Program, node: u64) -> u64
    ensures { result ≡ length (node_at (content program.now).nodes node).cost }
{
    match find(&program.nodes, node) {
        Some(found) => found.cost.len() as u64,
        None => 0,
    }
}

/// How many costs a node has with all above it.
fn path_count(program: &Program, node: u64) -> Result<u64, Memory>
    ensures { IfOk result (λ count. count ≡ length (path_costs (content program.now).nodes node)) }
{
    let mut count = 0;
    let mut at = node;
    let stages = stage(program, node) as u64 + 1;
    for _up in 0..stages {
        count = sum(count, cost_count(program, at))?;
        at = parent(program, at);
    }
    Ok(count)
}

/// The entries of the row TAIL_R at a node, where it has that row.
fn added_count(program: &Program, number: u64, stage: u32) -> Result<u64, Memory>
    ensures { IfOk result (λ count. count ≡ sum_by row_entries (added_row (content program.now) number stage)) }
{
    if last_stage(program) == stage as usize {
        let costs = path_count(program, number)?;
        sum(costs, 2)
    } else {
        Ok(0)
    }
}

/// The entries at a number.
fn place_count(program: &Program, number: u64) -> Result<u64, Memory>
    ensures { (rates : RatesOf) → IfOk result (λ count. count ≡ (place_counts (tail_place (content program.now) rates number)).entries) }
{
    match find(&program.nodes, number) {
        Some(node) => {
            let own = entries_of(&node.rows)?;
            let added = added_count(program, number, node.stage)?;
            sum(own, added)
        }
        None => Ok(0),
    }
}

/// The entries over all nodes.
fn entry_count(program: &Program) -> Result<u64, Memory>
    ensures { (rates : RatesOf) → IfOk result (λ count. count ≡ tail_entries (content program.now) rates) }
{
    let mut count = 0;
    for number in 0..program.nodes.len() {
        count = sum(count, place_count(program, number as u64)?)?;
    }
    Ok(count)
}

/// Whether there are more entries than there may be.
pub(crate) fn is_too_large(program: &Program) -> Result<bool, Memory>
    ensures { (rates : RatesOf) → IfOk result (λ answer. answer ≡ ltb 10000000 (tail_entries (content program.now) rates)) }
{
    let count = entry_count(program)?;
    Ok(MOST_ENTRIES < count)
}
