//! The sums over a whole program that a table shows.
use crate::amount::Amount;
use crate::reduced::{ByNode, reduced_costs};
use crate::tree::{Seating, scenario_counts};
use frac128::{Frac, Memory};
use scen_defs::{Node, Program, Report, Scenario, Values};
use std::alloc::Global;

/// What a table shows of a program and a report of it.
#[derive(Drop)]
pub struct ReportValues {
    pub(crate) seating: Seating,
    /// How many scenarios go through each node.
    pub(crate) counts: Vec<u32>,
    /// The probability of all scenarios through each node.
    pub(crate) chances: Vec<Amount>,
    /// The reduced costs of each node's columns; none where the report has no multipliers.
    pub(crate) reduced: Option<ByNode>,
    /// What the policy costs along each scenario.
    pub(crate) costs: Vec<Amount>,
}

/// The multipliers that a table shows: those of the dual, else those of the ray, with which costs don't count.
pub(crate) fn multipliers_of(report: &Report) -> Option<(&Values, bool)> {
    match (&report.dual, &report.ray) {
        (Some(dual), _) => Some((dual, true)),
        (None, Some(ray)) => Some((ray, false)),
        (None, None) => None,
    }
}

/// Adds a probability at each node of a path.
fn add_path(chances: &mut [Amount], path: &[u32], probability: &Amount) {
    for node in path {
        let place = *node as usize;
        if place < chances.len() {
            let chance = chances[place].plus(probability);
            chances[place] = chance;
        }
    }
}

/// The probability of all scenarios through each node.
fn chances(alloc: Global, nodes: usize, scenarios: &[Scenario]) -> Result<Vec<Amount>, Memory> {
    let mut chances = vec![in alloc; Amount::Known(Frac::zero()); nodes]?;
    for scenario in scenarios {
        let probability = Amount::Known(scenario.probability);
        add_path(chances.as_mut_slice(), &scenario.path, &probability);
    }
    Ok(chances)
}

/// What the policy costs at a node, without its probability.
fn node_cost(node: &Node, policy: &Values, number: u64, near: &mut usize) -> Amount {
    let mut sum = Amount::Known(Frac::zero());
    for term in node.cost.terms() {
        sum = sum.plus_product(term.value, policy.get_near(number, term.column, near));
    }
    sum
}

/// What the policy costs at each node, without its probability.
fn node_costs(alloc: Global, program: &Program, policy: &Values) -> Result<Vec<Amount>, Memory> {
    let mut costs = Vec::with_capacity(alloc, program.nodes.len())?;
    let mut near = 0;
    for (place, slot) in program.nodes.iter().enumerate() {
        let cost = match slot {
            Some(node) => node_cost(node, policy, place as u64, &mut near),
            None => Amount::Absent,
        };
        costs.push(cost)?;
    }
    Ok(costs)
}

/// The costs of the nodes of a path, added up.
fn path_cost(costs: &[Amount], path: &[u32]) -> Amount {
    let mut sum = Amount::Known(Frac::zero());
    for node in path {
        match costs.get(*node as usize) {
            Some(cost) => sum = sum.plus(cost),
            None => return Amount::Absent,
        }
    }
    sum
}

/// What the policy costs along each scenario.
fn scenario_costs(
    alloc: Global,
    program: &Program,
    policy: &Option<Values>,
) -> Result<Vec<Amount>, Memory> {
    let mut all = Vec::with_capacity(alloc, program.scenarios.len())?;
    let Some(policy) = policy else {
        for _scenario in &program.scenarios {
            all.push(Amount::Absent)?;
        }
        return Ok(all);
    };
    let costs = node_costs(alloc, program, policy)?;
    for scenario in &program.scenarios {
        all.push(path_cost(&costs, &scenario.path))?;
    }
    Ok(all)
}

impl ReportValues {
    /// Those of a program and a report of it.
    pub fn of(alloc: Global, program: &Program, report: &Report) -> Result<ReportValues, Memory> {
        let nodes = program.nodes.len();
        let seating = Seating::of(alloc, program)?;
        let counts = scenario_counts(alloc, nodes, &program.scenarios)?;
        let chances = chances(alloc, nodes, &program.scenarios)?;
        let reduced = match multipliers_of(report) {
            Some((multipliers, with_costs)) => Some(reduced_costs(
                alloc,
                program,
                &seating,
                &chances,
                multipliers,
                with_costs,
            )?),
            None => None,
        };
        let costs = scenario_costs(alloc, program, &report.policy)?;
        Ok(ReportValues {
            seating,
            counts,
            chances,
            reduced,
            costs,
        })
    }

    /// How many scenarios go through a node.
    pub fn scenarios(&self, node: u32) -> u32 {
        match self.counts.get(node as usize) {
            Some(count) => *count,
            None => 0,
        }
    }

    /// The probability of all scenarios through a node.
    pub fn probability(&self, node: u32) -> Amount {
        match self.chances.get(node as usize) {
            Some(chance) => *chance,
            None => Amount::Absent,
        }
    }

    /// What the policy costs along a scenario, by its place.
    pub fn cost(&self, scenario: usize) -> Amount {
        match self.costs.get(scenario) {
            Some(cost) => *cost,
            None => Amount::Absent,
        }
    }
}

/// Whether the multipliers of a table are those of a ray.
pub fn are_of_ray(report: &Report) -> bool {
    report.dual.is_none() && report.ray.is_some()
}

/// The distance of the ends: the upper one less the lower one.
pub fn gap(report: &Report) -> Amount {
    Amount::of_end(report.upper).less(&Amount::of_end(report.lower))
}
