//! Within which budget the reports of a command are found: first with all nodes together where that pays, as with a budget of no solves.
ghost use Rattle.std.specs.Prelude.{◌≡◌, ◌≢◌, true};
ghost use Rattle.exit_status.specs.declared.status.Status.{Status as StatusOf};
ghost use Rattle.smps_cli.specs.Within.{states_none, without_solves};

use crate::answer::Answer;
use command_words::Budget;
use edit_defs::Script;
use exit_status::Status;
use scen_defs::{Column, Node, Program};

/// With so few rows of all nodes the method takes no longer than all nodes together, and its policies are simpler.
const FEW_ROWS: usize = 24;
/// With more rows a guess of all nodes together takes long, and the method's solves may be shared by workers.
const MANY_ROWS: usize = 20_000;
/// Of two periods the method is quicker where all nodes have more entries than so many times the square of the first period's columns.
const ENTRIES_A_SQUARE: usize = 600;

/// How reports are found.
#[derive(Clone, Copy, Debug)]
pub(crate) enum Way {
    /// With all nodes together from the start, in a budget of no solves.
    Together,
    /// By the method, in the budget of the words.
    Method,
}

/// Whether the words state no number of solves, and none of pivots.
fn states_none(budget: Budget) -> bool
    ensures { result ≡ states_none budget }
{
    !budget.solves_stated && !budget.pivots_stated
}

/// The budget of no solves, with which all nodes are solved together.
pub(crate) fn without_solves(budget: Budget) -> Budget
    ensures { result ≡ without_solves budget }
{
    Budget {
        solves: 0,
        solves_stated: false,
        pivots: budget.pivots,
        pivots_stated: false,
    }
}

/// How many rows all nodes have together.
fn count_rows(nodes: &[Option<Node>]) -> usize {
    let mut count: usize = 0;
    for node in nodes {
        if let Some(node) = node {
            count = count.saturating_add(node.rows.len());
        }
    }
    count
}

/// How many entries all rows of nodes have together.
fn count_entries(nodes: &[Option<Node>]) -> usize {
    let mut count: usize = 0;
    for node in nodes {
        if let Some(node) = node {
            for row in &node.rows {
                count = count.saturating_add(row.entries.terms().len());
            }
        }
    }
    count
}

/// How many columns the first period has.
fn count_first(columns: &[Column]) -> usize {
    let mut count: usize = 0;
    for column in columns {
        if column.stage == 0 {
            count = count.saturating_add(1);
        }
    }
    count
}

/// Whether a program has two periods, of which the second one is wide for the first.
fn is_wide(program: &Program) -> bool {
    if program.periods.len() != 2 {
        return false;
    }
    let first = count_first(&program.columns);
    let most = first.saturating_mul(first).saturating_mul(ENTRIES_A_SQUARE);
    count_entries(&program.nodes) > most
}

/// Whether all nodes of a program are first solved together.
pub(crate) fn goes_together(program: &Program, budget: Budget) -> bool
    ensures { result ≡ true → states_none budget ≡ true }
{
    if !states_none(budget) {
        return false;
    }
    let rows = count_rows(&program.nodes);
    FEW_ROWS < rows && rows <= MANY_ROWS && !is_wide(program)
}

/// Whether no edit of a script asks for solves before it.
fn asks_no_work(script: &Script) -> bool {
    for item in &script.items {
        if item.work > 0 {
            return false;
        }
    }
    true
}

/// The same of a program after edits.
pub(crate) fn script_goes_together(program: &Program, script: &Script, budget: Budget) -> bool
    ensures { result ≡ true → states_none budget ≡ true }
{
    if asks_no_work(script) {
        goes_together(program, budget)
    } else {
        false
    }
}

impl Answer {
    /// Whether nothing is left open.
    pub(crate) fn is_closed(&self) -> bool
        ensures { result ≡ true → self.now.status ≢ StatusOf.SomeOpen }
    {
        self.status != Status::SomeOpen
    }
}
