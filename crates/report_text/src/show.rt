//! The text of a program.
ghost use Rattle.std.specs.Prelude.{◌≡◌, ◌++◌, OnOk, OnErr, length};
ghost use Rattle.std.specs.List.{flat_map};
ghost use Rattle.scen_defs.specs.Program.{content, nodes_content, scenario_content, scenarios_content};
ghost use Rattle.report_text.specs.Shown.{live_count, path_text, scenario_text, shape_text, tree_text, program_text};

use crate::pieces::{put, put_count, put_numbered};
use frac128::{Memory, print};
use scen_defs::{Node, Program, Scenario};
use std::alloc::Global;

/// Appends the text of a program: the counts of its parts, and a line for each scenario. After want of memory `out` is as
/// before.
pub fn print_program(alloc: Global, program: &Program, out: &mut Vec<u8>) -> Result<(), Memory>
    ensures ok { OnOk result (out.new.items ≡ out.old.items ++ program_text (content program.now)) }
    ensures err { OnErr result (out.new.items ≡ out.old.items) }
{
    let mut text = Vec::new(alloc);
    put_shape(alloc, &mut text, program)?;
    put_tree(alloc, &mut text, program)?;
    put_scenarios(alloc, &mut text, &program.scenarios)?;
    put(&mut text, b"END\n")?;
    out.extend_from_slice(&text)?;
    Ok(())
}

/// How many nodes there are, without those that were dropped.
fn live_nodes(nodes: &[Option<Node>]) -> u64
    ensures { result ≡ live_count (nodes_content nodes.now) }
{
    let mut count: u64 = 0;
    for slot in nodes {
        if slot.is_some() {
            count += 1;
        }
    }
    count
}

/// How many scenarios there are.
fn count_of(scenarios: &[Scenario]) -> u64
    ensures { result ≡ length (scenarios_content scenarios.now) }
{
    scenarios.len() as u64
}

/// Appends how many periods, columns and rows there are.
fn put_shape(alloc: Global, out: &mut Vec<u8>, program: &Program) -> Result<(), Memory>
    ensures { OnOk result (out.new.items ≡ out.old.items ++ shape_text (content program.now)) }
{
    put_numbered(alloc, out, b"PERIODS ", program.periods.len() as u64)?;
    put_numbered(alloc, out, b" COLUMNS ", program.columns.len() as u64)?;
    put_numbered(alloc, out, b" ROWS ", program.rows.len() as u64)
}

/// Appends how many nodes and scenarios there are.
fn put_tree(alloc: Global, out: &mut Vec<u8>, program: &Program) -> Result<(), Memory>
    ensures { OnOk result (out.new.items ≡ out.old.items ++ tree_text (content program.now)) }
{
    let nodes = live_nodes(&program.nodes);
    let scenarios = count_of(&program.scenarios);
    put_numbered(alloc, out, b" NODES ", nodes)?;
    put_numbered(alloc, out, b" SCENARIOS ", scenarios)?;
    put(out, b"\n")
}

/// Appends a line for each scenario.
fn put_scenarios(alloc: Global, out: &mut Vec<u8>, scenarios: &[Scenario]) -> Result<(), Memory>
    ensures { OnOk result (out.new.items ≡ out.old.items ++ flat_map scenario_text (scenarios_content scenarios.now)) }
{
    for scenario in scenarios {
        put_scenario(alloc, out, scenario)?;
    }
    Ok(())
}

/// Appends a scenario: its name, its probability and its nodes.
fn put_scenario(alloc: Global, out: &mut Vec<u8>, scenario: &Scenario) -> Result<(), Memory>
    ensures { OnOk result (out.new.items ≡ out.old.items ++ scenario_text (scenario_content scenario.now)) }
{
    put(out, b"SCENARIO ")?;
    put(out, scenario.name.as_bytes())?;
    put(out, b" ")?;
    print(alloc, scenario.probability, out)?;
    put_path(alloc, out, &scenario.path)?;
    put(out, b"\n")
}

/// Appends the nodes of a path.
fn put_path(alloc: Global, out: &mut Vec<u8>, path: &[u32]) -> Result<(), Memory>
    ensures { OnOk result (out.new.items ≡ out.old.items ++ path_text path.now) }
{
    for node in path {
        put(out, b" ")?;
        put_count(alloc, out, u64::from(*node))?;
    }
    Ok(())
}
