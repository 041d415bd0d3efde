// A program in stages on a tree of nodes.

ghost use Rattle.scen_defs.specs.Trees.{nodes_content, scenarios_content};
ghost use Rattle.scen_defs.specs.Valid.{IsProgram};
ghost use Rattle.scen_defs.specs.ValidProofs.{is_program_prop};

use frac128::{Form, Frac};
use smps_words::{Name, RowKind};

/// A column, which stands at each node of its stage. An absent bound is none.
#[derive(Drop)]
pub struct Column {
    pub name: Name,
    /// Counted from 0.
    pub stage: u32,
    pub lower: Option<Frac>,
    pub upper: Option<Frac>,
}

/// A row, which stands at each node of its stage.
#[derive(Drop)]
pub struct Row {
    pub name: Name,
    /// Counted from 0.
    pub stage: u32,
    pub kind: RowKind,
    /// How far the interval reaches from the right-hand side, where the core states it.
    pub range: Option<Frac>,
}

/// A row at a node: its entries by column and its interval. An absent end is none.
#[derive(Drop)]
pub struct NodeRow {
    /// The place of the row in `Program::rows`.
    pub row: u32,
    pub entries: Form,
    pub low: Option<Frac>,
    pub high: Option<Frac>,
}

/// A node: a state of the world at a stage.
#[derive(Drop)]
pub struct Node {
    /// Counted from 0.
    pub stage: u32,
    /// The node of the stage before, by its number. The root alone has none.
    pub parent: Option<u32>,
    /// The costs by column.
    pub cost: Form,
    /// The rows of the stage, in rising order.
    pub rows: Vec<NodeRow>,
}

/// A scenario: one way from the root to a node of the last stage.
#[derive(Drop)]
pub struct Scenario {
    pub name: Name,
    /// Above 0. All scenarios together have 1.
    pub probability: Frac,
    /// The nodes by stage.
    pub path: Vec<u32>,
}

/// A linear program in stages. Columns, rows and nodes are numbered from 0 by their places.
#[derive(Drop)]
pub struct Program {
    /// The name of the objective.
    pub objective: Name,
    /// The name of the set of right-hand sides.
    pub rhs: Name,
    /// The names of the periods, 1 to 16; a period is a stage.
    pub periods: Vec<Name>,
    pub columns: Vec<Column>,
    pub rows: Vec<Row>,
    /// `None` is a node that was dropped.
    pub nodes: Vec<Option<Node>>,
    pub scenarios: Vec<Scenario>,
    /// What every program keeps.
    ghost keeps: { IsProgram (record {
      objective = objective;
      rhs = rhs;
      periods = periods.items;
      columns = columns.items;
      rows = rows.items;
      nodes = nodes_content nodes.items;
      scenarios = scenarios_content scenarios.items;
    }) } by { is_program_prop _ },
}

impl Program {
    ghost use Rattle.std.specs.Prelude.{◌≡◌};
    ghost use Rattle.scen_defs.specs.Program.{content};

    /// The program of these parts, which keep together what every program keeps. Every program is made here.
    pub fn of_parts(
        objective: Name,
        rhs: Name,
        periods: Vec<Name>,
        columns: Vec<Column>,
        rows: Vec<Row>,
        nodes: Vec<Option<Node>>,
        scenarios: Vec<Scenario>,
    ) -> Program
        requires { IsProgram (record {
          objective = objective;
          rhs = rhs;
          periods = periods.items;
          columns = columns.items;
          rows = rows.items;
          nodes = nodes_content nodes.items;
          scenarios = scenarios_content scenarios.items;
        }) }
        ensures { content result ≡ record {
          objective = objective;
          rhs = rhs;
          periods = periods.items;
          columns = columns.items;
          rows = rows.items;
          nodes = nodes_content nodes.items;
          scenarios = scenarios_content scenarios.items;
        } }
    {
        Program {
            objective,
            rhs,
            periods,
            columns,
            rows,
            nodes,
            scenarios,
        }
    }
}
