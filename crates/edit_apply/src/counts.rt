// What a program has over all its nodes.
ghost use Rattle.std.specs.Prelude.{◌≡◌, ◌+◌, IfOk, leb, length, sum_by};
ghost use Rattle.scen_defs.specs.Program.{node_content, place_content, nodes_content, scenarios_content};
ghost use Rattle.edit_defs.specs.Limits.{are_many, counts, is_above, no_counts, node_counts, place_counts, plus, row_entries};

use edit_defs::Counts;
use frac128::Memory;
use scen_defs::{Node, NodeRow, Scenario};

/// So many entries, rows and costs a program has at most over all nodes, each by itself.
const MOST_ENTRIES: u64 = 10_000_000;

/// So many live nodes.
const MOST_NODES: u64 = 20_000;

/// So many scenarios.
const MOST_SCENARIOS: usize = 10_000;

/// A sum. One that passes 64 bits is more than any memory holds.
fn sum(one: u64, other: u64) -> Result<u64, Memory>
    ensures { IfOk result (λ sum. sum ≡ one + other) }
{
    match one.checked_add(other) {
        Some(sum) => Ok(sum),
        None => Err(Memory),
    }
}

/// A count with more in place of some of it.
pub(crate) fn moved(count: u64, less: usize, more: usize) -> Result<u64, Memory>
    ensures { IfOk result (λ moved. moved + less ≡ count + more) }
{
    let all = sum(count, more as u64)?;
    match all.checked_sub(less as u64) {
        Some(moved) => Ok(moved),
        None => Err(Memory),
    }
}

pub(crate) fn none() -> Counts
    ensures { result ≡ no_counts }
{
    Counts {
        nodes: 0,
        entries: 0,
        rows: 0,
        costs: 0,
    }
}

pub(crate) fn plus(one: Counts, other: Counts) -> Result<Counts, Memory>
    ensures { IfOk result (λ sum. sum ≡ plus one other) }
{
    Ok(Counts {
        nodes: sum(one.nodes, other.nodes)?,
        entries: sum(one.entries, other.entries)?,
        rows: sum(one.rows, other.rows)?,
        costs: sum(one.costs, other.costs)?,
    })
}

/// The entries of rows.
fn entry_count(rows: &[NodeRow]) -> Result<u64, Memory>
    ensures { IfOk result (λ count. count ≡ sum_by row_entries rows.now) }
{
    let mut count = 0;
    for row in rows {
        count = sum(count, row.entries.len() as u64)?;
    }
    Ok(count)
}

fn node_counts(node: &Node) -> Result<Counts, Memory>
    ensures { IfOk result (λ all. all ≡ node_counts (node_content node.now)) }
{
    Ok(Counts {
        nodes: 1,
        entries: entry_count(&node.rows)?,
        rows: node.rows.len() as u64,
        costs: node.cost.len() as u64,
    })
}

pub(crate) fn place_counts(place: &Option<Node>) -> Result<Counts, Memory>
    ensures { IfOk result (λ all. all ≡ place_counts (place_content place.now)) }
{
    match place {
        Some(node) => node_counts(node),
        None => Ok(none()),
    }
}

/// What nodes have, all together.
pub fn count(nodes: &[Option<Node>]) -> Result<Counts, Memory>
    ensures { IfOk result (λ all. all ≡ counts (nodes_content nodes.now)) }
{
    let mut all = none();
    for place in nodes {
        let here = place_counts(place)?;
        all = plus(all, here)?;
    }
    Ok(all)
}

/// Whether there are more entries, rows or costs than there may be.
pub(crate) fn are_many(counts: Counts) -> bool
    ensures { result ≡ are_many counts }
{
    MOST_ENTRIES < counts.entries || MOST_ENTRIES < counts.rows || MOST_ENTRIES < counts.costs
}

/// Whether there are as many scenarios as there may be.
fn are_most(scenarios: &[Scenario]) -> bool
    ensures { result ≡ leb 10000 (length scenarios.now) }
{
    MOST_SCENARIOS <= scenarios.len()
}

/// Whether a program is above a limit that has these scenarios and one more.
#[tactic(auto, using(crate::proofs::Counting::above_scenarios, crate::proofs::Counting::above_nodes, crate::proofs::Counting::above_many))]
pub(crate) fn is_above(scenarios: &[Scenario], counts: Counts) -> bool
    ensures { result ≡ is_above (length (scenarios_content scenarios.now) + 1) counts }
{
    if are_most(scenarios) {
        return true;
    }
    if MOST_NODES < counts.nodes {
        return true;
    }
    are_many(counts)
}
