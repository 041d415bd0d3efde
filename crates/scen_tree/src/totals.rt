//! The probability of all scenarios through each node.
ghost use Rattle.std.specs.Prelude.{◌≡◌, OnOk, IfOk, MatchResult, [], Ok, replicate};
ghost use Rattle.rationals.specs.Rational.{zero_ℚ};
ghost use Rattle.scen_defs.specs.Lists.{is_in};
ghost use Rattle.scen_defs.specs.Program.{scenarios_content};
ghost use Rattle.frac128.specs.Faults.{FaultOf};
ghost use Rattle.scen_tree.specs.Chances.{live_sum, live_sums_from, gathered_from};
ghost use Rattle.scen_tree.specs.Sums.{more, with_path, sums_through};

use crate::position::Position;
use frac128::{ArithmeticFault, Frac, Passed};
use scen_defs::Scenario;
use std::alloc::{AllocError, Global};

/// Whether a path has the node.
fn passes(path: &[u32], node: u32) -> bool
    ensures { result ≡ is_in node path.now }
{
    for place in path {
        if *place == node {
            return true;
        }
    }
    false
}

/// The sum and a further probability, unless an operation of it has passed.
fn more(sum: Result<Frac, Passed>, probability: Frac) -> Result<Frac, Passed>
    ensures { result ≡ more probability sum }
{
    match sum {
        Ok(total) => total.add(probability),
        Err(passed) => Err(passed),
    }
}

/// Adds the probability of a scenario to the sums of the nodes on its path, once to each.
fn add_path(sums: &mut Vec<Result<Frac, Passed>>, path: &[u32], probability: Frac)
    ensures { sums.new.items ≡ with_path path.now probability 0 sums.old.items }
{
    for (place, node) in path.iter().enumerate() {
        let number = *node as usize;
        if number < sums.len() && !passes(&path[..place], *node) {
            let sum = sums[number];
            sums[number] = more(sum, probability);
        }
    }
}

/// So many sums without a probability.
fn empty_sums(alloc: Global, count: usize) -> Result<Vec<Result<Frac, Passed>>, AllocError>
    ensures { IfOk result (λ sums. sums.items ≡ replicate count (Ok zero_ℚ)) }
{
    let sum: Result<Frac, Passed> = Ok(Frac::zero());
    vec![in alloc; sum; count]
}

/// The sums of the probabilities of the scenarios through each of so many nodes.
fn sums_through(
    alloc: Global,
    count: usize,
    scenarios: &[Scenario],
) -> Result<Vec<Result<Frac, Passed>>, AllocError>
    ensures { IfOk result (λ sums. sums.items ≡ sums_through 0 count (scenarios_content scenarios.now)) }
{
    let mut sums = empty_sums(alloc, count)?;
    for scenario in scenarios {
        add_path(&mut sums, &scenario.path, scenario.probability);
    }
    Ok(sums)
}

/// The sum of a node that wasn't dropped, else 0.
fn live_sum(position: Position, sum: Result<Frac, Passed>) -> Result<Frac, Passed>
    ensures { result ≡ live_sum position sum }
{
    match position {
        Position::Dropped => Ok(Frac::zero()),
        Position::Root => sum,
        Position::Below(_) => sum,
    }
}

/// The totals of the nodes; or, by node, the first sum that passes.
pub(crate) fn totals(
    alloc: Global,
    positions: &[Position],
    scenarios: &[Scenario],
) -> Result<Vec<Frac>, ArithmeticFault>
    ensures { MatchResult result (λ totals. gathered_from [] (live_sums_from 0 positions.now (scenarios_content scenarios.now))
        ≡ Ok totals.items)
        (FaultOf (gathered_from [] (live_sums_from 0 positions.now (scenarios_content scenarios.now)))) }
{
    let sums = sums_through(alloc, positions.len(), scenarios)?;
    let mut totals = Vec::with_capacity(alloc, positions.len())?;
    for (node, position) in positions.iter().enumerate() {
        if node < sums.len() {
            let total = live_sum(*position, sums[node])?;
            totals.push(total)?;
        }
    }
    Ok(totals)
}
