// Programs with one scenario: a line of nodes, one for each stage.
ghost use Rattle.std.specs.Prelude.{◌≡◌, ◌<◌, ◌^◌, ◌∷◌, [], IfOk, length};
ghost use Rattle.scen_defs.specs.Program.{content, nodes_content, scenario_content};
ghost use Rattle.scen_defs.specs.Valid.{IsProgram};
ghost use Rattle.value_programs.specs.Line.{certain, in_line, line_path, stage_before};

use frac128::{Frac, Memory};
use scen_copies::{copied_columns, copied_name, copied_names, copied_rows};
use scen_defs::{Node, Program, Scenario};
use smps_words::Name;
use std::alloc::Global;

/// The node above that of a stage.
pub(crate) fn stage_before(stage: u32) -> Option<u32>
    ensures { result ≡ stage_before stage }
{
    stage.checked_sub(1)
}

/// So many nodes, numbered from 0.
fn line_path(alloc: Global, count: u32) -> Result<Vec<u32>, Memory>
    ensures { IfOk result (λ path. path.items ≡ line_path 0 count) }
{
    let mut path = Vec::new(alloc);
    for node in 0..count {
        path.push(node)?;
    }
    Ok(path)
}

/// A scenario of this name through so many nodes, which is certain.
fn certain(alloc: Global, name: Name, count: u32) -> Result<Scenario, Memory>
    ensures { IfOk result (λ only. scenario_content only ≡ certain name count) }
{
    let path = line_path(alloc, count)?;
    Ok(Scenario {
        name,
        probability: Frac::one(),
        path,
    })
}

/// The program with these nodes alone, and one scenario of this name through all of them, which is certain.
pub(crate) fn in_line(
    alloc: Global,
    program: &Program,
    name: Name,
    nodes: Vec<Option<Node>>,
) -> Result<Program, Memory>
    requires { IsProgram (in_line (content program.now) name (nodes_content nodes.items)) }
    ensures { IfOk result (λ line. content line ≡ in_line (content program.now) name (nodes_content nodes.items)) }
{
    let objective = copied_name(alloc, &program.objective)?;
    let rhs = copied_name(alloc, &program.rhs)?;
    let periods = copied_names(alloc, &program.periods)?;
    let columns = copied_columns(alloc, &program.columns)?;
    let rows = copied_rows(alloc, &program.rows)?;
    let only = certain(alloc, name, nodes.len() as u32)?;
    let mut scenarios = Vec::new(alloc);
    scenarios.push(only)?;
    Ok(Program::of_parts(objective, rhs, periods, columns, rows, nodes, scenarios))
}
