// The program of one scenario by itself.
ghost use Rattle.std.specs.Prelude.{◌≡◌, ◌<◌, ◌^◌, IfOk, length, get_or};
ghost use Rattle.scen_defs.specs.Program.{content, node_at, node_content, nodes_content, scenarios_content};
ghost use Rattle.edit_defs.specs.After.{no_scenario};
ghost use Rattle.value_programs.specs.OneScenario.{scenario_program, path_nodes};

use crate::line::{in_line, stage_before};
use frac128::{Form, Memory};
use scen_copies::{copied_name, copied_node_rows};
use scen_defs::{Node, Program};
use scen_nodes::find;
use std::alloc::Global;

/// The node of this number, below another parent.
fn node_below(
    alloc: Global,
    nodes: &[Option<Node>],
    number: u32,
    above: Option<u32>,
) -> Result<Node, Memory>
    ensures { IfOk result (λ node. node_content node ≡ record (node_at (nodes_content nodes.now) number) { parent = above }) }
{
    let Some(node) = find(nodes, number as u64) else {
        return Ok(Node {
            stage: 0,
            parent: above,
            cost: Form::empty(alloc),
            rows: Vec::new(alloc),
        });
    };
    let cost = node.cost.copy(alloc)?;
    let rows = copied_node_rows(alloc, &node.rows)?;
    Ok(Node {
        stage: node.stage,
        parent: above,
        cost,
        rows,
    })
}

/// The nodes of a path, each below the one before it.
fn nodes_along(
    alloc: Global,
    nodes: &[Option<Node>],
    path: &[u32],
) -> Result<Vec<Option<Node>>, Memory>
    requires { length path.now < 2 ^ 32 }
    ensures { IfOk result (λ all. nodes_content all.items ≡ path_nodes (nodes_content nodes.now) 0 path.now) }
{
    let mut all = Vec::new(alloc);
    let mut stage: u32 = 0;
    for number in path {
        let node = node_below(alloc, nodes, *number, stage_before(stage))?;
        all.push(Some(node))?;
        stage += 1;
    }
    Ok(all)
}

/// The program in which the scenario at this place is the only one, with probability 1. It has one node for each stage, of its number.
pub fn scenario_program(alloc: Global, program: &Program, place: usize) -> Result<Program, Memory>
    requires { place < length program.now.scenarios.items }
    ensures { IfOk result (λ only. content only
        ≡ scenario_program (content program.now) (get_or (scenarios_content program.now.scenarios.items) place no_scenario)) }
{
    let scenario = &program.scenarios[place];
    let name = copied_name(alloc, &scenario.name)?;
    let nodes = nodes_along(alloc, &program.nodes, &scenario.path)?;
    in_line(alloc, program, name, nodes)
}
