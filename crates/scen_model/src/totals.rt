// The probability of all scenarios through a node.
ghost use Rattle.std.specs.Prelude.{◌≡◌, Ok, eqb, length, IfOk, OnOk};
ghost use Rattle.rationals.specs.Rational.{zero_ℚ};
ghost use Rattle.rationals.specs.Passes.{add_walk};
ghost use Rattle.rationals.specs.Choices.{pick};
ghost use Rattle.scen_defs.specs.Lists.{is_in};
ghost use Rattle.scen_defs.specs.Program.{scenarios_content, content, view_of};
ghost use Rattle.scen_defs.specs.Walks.{total_from};
ghost use Rattle.scen_model.specs.Walks.{totals_walk};
ghost use Rattle.scen_model.specs.Gathered.{Moves, everywhere, AreTotals};

use frac128::{Frac, Passed, Unfinished};
use scen_defs::{Program, Scenario};
use std::alloc::Global;

/// Whether a path has the node.
fn passes(path: &[u32], node: u64) -> bool
    ensures { result ≡ is_in node path.now }
{
    for place in path {
        if *place as u64 == node {
            return true;
        }
    }
    false
}

/// The probability of all scenarios through a node.
pub(crate) fn total(scenarios: &[Scenario], node: u64) -> Result<Frac, Passed>
    ensures { result ≡ total_from node zero_ℚ (scenarios_content scenarios.now) }
{
    let mut sum = Frac::zero();
    for scenario in scenarios {
        if passes(&scenario.path, node) {
            sum = sum.add(scenario.probability)?;
        }
    }
    Ok(sum)
}

/// Takes the totals of all nodes.
pub(crate) fn totals(program: &Program) -> Result<(), Passed>
    ensures { result ≡ totals_walk (view_of (content program.now)) (view_of (content program.now)).live }
{
    for (node, slot) in program.nodes.iter().enumerate() {
        if slot.is_some() {
            total(&program.scenarios, node as u64)?;
        }
    }
    Ok(())
}

/// Adds a probability to the sum of a node.
fn add_at(sums: &mut [Frac], node: u32, probability: Frac) -> Result<(), Unfinished>
    ensures { OnOk result (Moves everywhere (λ n s. pick (eqb node n) (add_walk s probability) (Ok s)) sums.old sums.new) }
{
    let place = node as usize;
    if place >= sums.len() {
        return Err(Unfinished::Walk);
    }
    sums[place] = sums[place].add(probability)?;
    Ok(())
}

/// Adds a probability to the sum of each node of a path that has no node twice.
fn add_path(sums: &mut [Frac], path: &[u32], probability: Frac) -> Result<(), Unfinished>
    ensures { OnOk result (Moves everywhere (λ n s. pick (is_in n path.now) (add_walk s probability) (Ok s)) sums.old sums.new) }
{
    for index in 0..path.len() {
        let node = path[index];
        if passes(&path[index + 1..], node as u64) {
            return Err(Unfinished::Walk);
        }
        add_at(sums, node, probability)?;
    }
    Ok(())
}

/// Adds the probabilities of scenarios, in order.
fn add_paths(sums: &mut [Frac], scenarios: &[Scenario]) -> Result<(), Unfinished>
    ensures { OnOk result (Moves everywhere (λ n s. total_from n s (scenarios_content scenarios.now)) sums.old sums.new) }
{
    for scenario in scenarios {
        add_path(sums, &scenario.path, scenario.probability)?;
    }
    Ok(())
}

/// The totals of all nodes, in one pass over the scenarios.
pub fn all_totals(alloc: Global, program: &Program) -> Result<Vec<Frac>, Unfinished>
    ensures length { IfOk result (λ totals. length totals.items ≡ length program.now.nodes.items) }
    ensures totals { IfOk result (λ totals. AreTotals (view_of (content program.now)) totals.items) }
{
    let mut sums = Vec::new(alloc);
    sums.resize(program.nodes.len(), Frac::zero())?;
    add_paths(sums.as_mut_slice(), &program.scenarios)?;
    Ok(sums)
}
