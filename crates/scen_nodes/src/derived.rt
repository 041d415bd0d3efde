// The form of a program that a run solves.
ghost use Rattle.std.specs.Prelude.{◌≡◌, IfOk, map};
ghost use Rattle.scen_defs.specs.Program.{content, node_content, place_content, nodes_content, scenario_content, scenarios_content};
ghost use Rattle.scen_nodes.specs.Derived.{derived, derived_bound, derived_column, derived_cost};
ghost use Rattle.scen_nodes.specs.Derived.{derived_end, derived_node, derived_place, derived_row};

use frac128::{Form, Frac, Memory};
use scen_copies::{copied_name, copied_names, copied_rows};
use scen_defs::{Column, Kind, Node, NodeRow, Program, Scenario};
use std::alloc::Global;

/// A bound in a run of this kind: in a Recession run 0, and this number where there is none.
pub fn derived_bound(kind: Kind, absent: Frac, bound: Option<Frac>) -> Option<Frac>
    ensures { result ≡ derived_bound kind absent bound }
{
    match (kind, bound) {
        (Kind::Recession, None) => Some(absent),
        (Kind::Recession, Some(_)) => Some(Frac::zero()),
        (Kind::Feasible, _) => bound,
        (Kind::Cost, _) => bound,
    }
}

/// An end of a row's interval in a run of this kind: in a Recession run 0 where it is finite.
fn derived_end(kind: Kind, end: Option<Frac>) -> Option<Frac>
    ensures { result ≡ derived_end kind end }
{
    match (kind, end) {
        (Kind::Recession, None) => None,
        (Kind::Recession, Some(_)) => Some(Frac::zero()),
        (Kind::Feasible, _) => end,
        (Kind::Cost, _) => end,
    }
}

/// The costs of a node in a run of this kind: none in a Feasible run.
pub fn derived_cost(alloc: Global, kind: Kind, cost: &Form) -> Result<Form, Memory>
    ensures { IfOk result (λ form. form ≡ derived_cost kind cost.now) }
{
    match kind {
        Kind::Feasible => Ok(Form::empty(alloc)),
        Kind::Recession => cost.copy(alloc),
        Kind::Cost => cost.copy(alloc),
    }
}

fn columns(alloc: Global, kind: Kind, columns: &[Column]) -> Result<Vec<Column>, Memory>
    ensures { IfOk result (λ all. all.items ≡ map (derived_column kind) columns.now) }
{
    let mut all = Vec::new(alloc);
    for column in columns {
        let name = copied_name(alloc, &column.name)?;
        all.push(Column {
            name,
            stage: column.stage,
            lower: derived_bound(kind, Frac::one().neg(), column.lower),
            upper: derived_bound(kind, Frac::one(), column.upper),
        })?;
    }
    Ok(all)
}

/// The rows of a node in a run of this kind.
pub fn derived_rows(alloc: Global, kind: Kind, rows: &[NodeRow]) -> Result<Vec<NodeRow>, Memory>
    ensures { IfOk result (λ all. all.items ≡ map (derived_row kind) rows.now) }
{
    let mut all = Vec::new(alloc);
    for row in rows {
        let entries = row.entries.copy(alloc)?;
        all.push(NodeRow {
            row: row.row,
            entries,
            low: derived_end(kind, row.low),
            high: derived_end(kind, row.high),
        })?;
    }
    Ok(all)
}

fn node(alloc: Global, kind: Kind, node: &Node) -> Result<Node, Memory>
    ensures { IfOk result (λ copy. node_content copy ≡ derived_node kind (node_content node.now)) }
{
    let cost = derived_cost(alloc, kind, &node.cost)?;
    let rows = derived_rows(alloc, kind, &node.rows)?;
    Ok(Node {
        stage: node.stage,
        parent: node.parent,
        cost,
        rows,
    })
}

fn place(alloc: Global, kind: Kind, place: &Option<Node>) -> Result<Option<Node>, Memory>
    ensures { IfOk result (λ copy. place_content copy ≡ derived_place kind (place_content place.now)) }
{
    match place {
        Some(found) => {
            let copy = node(alloc, kind, found)?;
            Ok(Some(copy))
        }
        None => Ok(None),
    }
}

fn nodes(alloc: Global, kind: Kind, nodes: &[Option<Node>]) -> Result<Vec<Option<Node>>, Memory>
    ensures { IfOk result (λ all. nodes_content all.items ≡ map (derived_place kind) (nodes_content nodes.now)) }
{
    let mut all = Vec::new(alloc);
    for slot in nodes {
        let copy = place(alloc, kind, slot)?;
        all.push(copy)?;
    }
    Ok(all)
}

fn scenario(alloc: Global, scenario: &Scenario) -> Result<Scenario, Memory>
    ensures { IfOk result (λ copy. scenario_content copy ≡ scenario_content scenario.now) }
{
    let name = copied_name(alloc, &scenario.name)?;
    let mut path = Vec::new(alloc);
    path.extend_from_slice(&scenario.path)?;
    Ok(Scenario {
        name,
        probability: scenario.probability,
        path,
    })
}

fn scenarios(alloc: Global, scenarios: &[Scenario]) -> Result<Vec<Scenario>, Memory>
    ensures { IfOk result (λ all. scenarios_content all.items ≡ scenarios_content scenarios.now) }
{
    let mut all = Vec::new(alloc);
    for found in scenarios {
        let copy = scenario(alloc, found)?;
        all.push(copy)?;
    }
    Ok(all)
}

/// The form of a program that a run of this kind solves: with all costs 0 for `Feasible`; with 0 in place
/// of each finite interval end and bound, -1 of each absent lower bound and 1 of each absent upper bound
/// for `Recession`; the program itself for `Cost`.
pub fn derive(alloc: Global, program: &Program, kind: Kind) -> Result<Program, Memory>
    ensures { IfOk result (λ form. content form ≡ derived kind (content program.now)) }
{
    let objective = copied_name(alloc, &program.objective)?;
    let rhs = copied_name(alloc, &program.rhs)?;
    let periods = copied_names(alloc, &program.periods)?;
    let columns = columns(alloc, kind, &program.columns)?;
    let rows = copied_rows(alloc, &program.rows)?;
    let nodes = nodes(alloc, kind, &program.nodes)?;
    let scenarios = scenarios(alloc, &program.scenarios)?;
    Ok(Program::of_parts(objective, rhs, periods, columns, rows, nodes, scenarios))
}
