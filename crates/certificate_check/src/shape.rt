//! The shape of a report: its counts, its parts, and lists that fit.
ghost use Rattle.std.specs.Prelude.{◌≡◌, ◌&&◌, length};
ghost use Rattle.scen_defs.specs.Lists.{places};
ghost use Rattle.scen_defs.specs.Program.{is_live, nodes_content, scenarios_content};
ghost use Rattle.report_defs.specs.Findings.{has_direction, has_ray, has_extra};
ghost use Rattle.certificate_check.specs.Verdicts.{agree, has_counts, has_parts, list_fits, lists_fit, has_shape};

use scen_defs::{Finding, Node, Program, Report, Scenario, Values};
use scen_model::fits;

/// Whether the counts are the program's, each part stands there exactly where it is asked for, and each list fits.
pub(crate) fn has_shape(program: &Program, report: &Report) -> bool
    ensures { result ≡ has_shape program.now report.now }
{
    has_counts(program, report) && has_parts(report) && lists_fit(program, report)
}

/// Whether the counts of nodes and scenarios are the program's.
fn has_counts(program: &Program, report: &Report) -> bool
    ensures { result ≡ has_counts program.now report.now }
{
    let nodes = live_nodes(&program.nodes);
    let scenarios = count_of(&program.scenarios);
    report.nodes as usize == nodes && report.scenarios as usize == scenarios
}

/// How many scenarios there are.
fn count_of(scenarios: &[Scenario]) -> usize
    ensures { result ≡ length (scenarios_content scenarios.now) }
{
    scenarios.len()
}

/// How many nodes there are, without those that were dropped.
fn live_nodes(nodes: &[Option<Node>]) -> usize
    ensures { result ≡ length (places is_live 0 (nodes_content nodes.now)) }
{
    let mut count: usize = 0;
    for (place, slot) in nodes.iter().enumerate() {
        if slot.is_some() {
            count += 1;
        }
    }
    count
}

/// Whether both hold, or neither does.
fn agree(a: bool, b: bool) -> bool
    ensures { result ≡ agree a b }
{
    if a { b } else { !b }
}

/// Whether each part stands there exactly where the finding and the ends ask for it.
fn has_parts(report: &Report) -> bool
    ensures { result ≡ has_parts report.now }
{
    agree(report.policy.is_some(), report.upper.is_some())
        && agree(report.dual.is_some(), report.lower.is_some())
        && agree(report.direction.is_some(), has_direction(report.finding))
        && agree(report.ray.is_some(), has_ray(report.finding))
        && agree(report.extra.is_some(), has_extra(report.finding))
}

fn has_direction(finding: Finding) -> bool
    ensures { result ≡ has_direction finding }
{
    matches!(finding, Finding::Unbounded)
}

fn has_ray(finding: Finding) -> bool
    ensures { result ≡ has_ray finding }
{
    matches!(finding, Finding::Infeasible)
}

/// Whether a value is told: of a ray, or the slope of a direction.
fn has_extra(finding: Finding) -> bool
    ensures { result ≡ has_extra finding }
{
    matches!(finding, Finding::Infeasible | Finding::Unbounded)
}

/// Whether a list fits, where it is there.
fn list_fits(program: &Program, list: &Option<Values>, of_rows: bool) -> bool
    ensures { result ≡ list_fits program.now of_rows list.now }
{
    match list {
        Some(values) => fits(program, values, of_rows),
        None => true,
    }
}

/// Whether each list that is there fits.
fn lists_fit(program: &Program, report: &Report) -> bool
    ensures { result ≡ lists_fit program.now report.now }
{
    list_fits(program, &report.policy, false)
        && list_fits(program, &report.direction, false)
        && list_fits(program, &report.dual, true)
        && list_fits(program, &report.ray, true)
}
