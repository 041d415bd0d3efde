// What multipliers are worth.
ghost use Rattle.std.specs.Prelude.{◌≡◌};
ghost use Rattle.rationals.specs.Choices.{pick};
ghost use Rattle.scen_defs.specs.Values.{at};
ghost use Rattle.scen_defs.specs.Program.{content, view_of};
ghost use Rattle.scen_defs.specs.Flat.{without_costs, is_above};
ghost use Rattle.scen_model.specs.Answers.{AnswersOption};
ghost use Rattle.scen_defs.specs.Walks.{less_from};
ghost use Rattle.scen_model.specs.Walks.{costs_of, less_all, reduced_walk};
ghost use Rattle.scen_model.specs.Walks.{bound_step, columns_step, all_columns, dual_by, dual_walk};

use crate::charges::{Costs, cost_at};
use crate::ended::Ended;
use crate::ends::add_worth;
use crate::quick::quick_value;
use crate::rows::add_all_rows;
use crate::stop::Stop;
use crate::totals::{total, totals};
use frac128::{Frac, Passed};
use scen_defs::{Halt, NodeRow, Place, Program, Values};
use scen_nodes::{is_above, stage};
use std::alloc::Global;

/// What is left of a number, row by row, less the entry of a column times the multiplier.
fn less_rows(
    rows: &[NodeRow],
    values: &Values,
    node: u64,
    column: u64,
    start: Frac,
) -> Result<Frac, Passed>
    ensures { result ≡ less_from column (at values.now node) start rows.now }
{
    let mut rest = start;
    for row in rows {
        let multiplier = values.get(node, row.row as u64);
        rest = rest.less_product(row.entries.get(column), multiplier)?;
    }
    Ok(rest)
}

/// The same where a node is the top one or stands below it.
fn less_node(
    program: &Program,
    rows: &[NodeRow],
    values: &Values,
    top: u64,
    node: u64,
    column: u64,
    start: Frac,
) -> Result<Frac, Passed>
    ensures { let v = view_of (content program.now) in
        result ≡ pick (is_above v top node) (less_from column (at values.now node) start rows.now) (Ok start) }
{
    if is_above(program, top, node) {
        less_rows(rows, values, node, column, start)
    } else {
        Ok(start)
    }
}

/// The same over all nodes.
fn less_below(
    program: &Program,
    values: &Values,
    top: u64,
    column: u64,
    start: Frac,
) -> Result<Frac, Passed>
    ensures { result ≡ less_all (view_of (content program.now)) (at values.now) top column start }
{
    let mut rest = start;
    for (place, slot) in program.nodes.iter().enumerate() {
        if let Some(node) = slot {
            rest = less_node(program, &node.rows, values, top, place as u64, column, rest)?;
        }
    }
    Ok(rest)
}

/// The reduced cost of a column at a node.
fn reduced(
    program: &Program,
    costs: Costs,
    values: &Values,
    node: u64,
    column: u64,
) -> Result<Frac, Passed>
    ensures { let v = view_of (content program.now) in result ≡ reduced_walk (costs_of costs v) v (at values.now) node column }
{
    let total = total(&program.scenarios, node)?;
    let start = total.mul(cost_at(program, costs, node, column))?;
    less_below(program, values, node, column, start)
}

/// The sum, and a reduced cost times the bound that it uses.
fn add_column(
    program: &Program,
    costs: Costs,
    values: &Values,
    node: u64,
    column: u64,
    lower: Option<Frac>,
    upper: Option<Frac>,
    sum: Frac,
) -> Result<Frac, Stop>
    ensures { let v = view_of (content program.now) in
        result ≡ bound_step (reduced_walk (costs_of costs v) v (at values.now) node column) lower upper sum }
{
    let reduced = reduced(program, costs, values, node, column)?;
    add_worth(lower, upper, reduced, sum)
}

/// The same for each column of a node's stage.
fn add_columns(
    program: &Program,
    costs: Costs,
    values: &Values,
    node: u64,
    start: Frac,
) -> Result<Frac, Stop>
    ensures { let v = view_of (content program.now) in result ≡ columns_step (costs_of costs v) v (at values.now) start node }
{
    let stage = stage(program, node);
    let mut sum = start;
    for (place, column) in program.columns.iter().enumerate() {
        if column.stage == stage {
            let lower = column.lower;
            let upper = column.upper;
            sum = add_column(
                program,
                costs,
                values,
                node,
                place as u64,
                lower,
                upper,
                sum,
            )?;
        }
    }
    Ok(sum)
}

/// The same for all nodes.
fn add_all_columns(
    program: &Program,
    costs: Costs,
    values: &Values,
    start: Frac,
) -> Result<Frac, Stop>
    ensures { result ≡ all_columns (costs_of costs (view_of (content program.now)))
        (view_of (content program.now)) (at values.now) start }
{
    let mut sum = start;
    for (place, slot) in program.nodes.iter().enumerate() {
        if slot.is_some() {
            sum = add_columns(program, costs, values, place as u64, sum)?;
        }
    }
    Ok(sum)
}

/// The totals, then the rows, then the columns, each total and each reduced cost by itself.
fn value_by_walk(program: &Program, costs: Costs, values: &Values) -> Result<Frac, Stop>
    ensures { result ≡ dual_by (costs_of costs (view_of (content program.now))) (view_of (content program.now)) (at values.now) }
{
    totals(program)?;
    let sum = add_all_rows(program, values)?;
    add_all_columns(program, costs, values, sum)
}

/// The same, with all totals at once and with all reduced costs of a node at once.
fn value_by(
    alloc: Global,
    program: &Program,
    costs: Costs,
    values: &Values,
) -> Result<Option<Frac>, Halt>
    ensures { let v = view_of (content program.now) in AnswersOption (dual_by (costs_of costs v) v (at values.now)) result }
{
    match quick_value(alloc, program, costs, values) {
        Ok(sum) => Ok(Some(sum)),
        Err(Ended::Decided) => Ok(None),
        Err(Ended::Walk) => answer(value_by_walk(program, costs, values)),
        Err(Ended::Memory) => Err(Halt::Memory),
    }
}

/// What multipliers are worth: by node and row the multiplier times the end of the row's interval that
/// it uses, then by node and column the reduced cost times the bound that it uses, added from left to right.
///
/// A number above 0 uses the low end or the lower bound, one below 0 the high end or the upper bound. The
/// reduced cost of a column at a node is the node's total times the cost, less entry times multiplier by
/// node and row, over the rows of the node and of all nodes below it. The totals by node come first.
/// `None` comes exactly where a used end is not finite and no operation before it passes. `Passed` has
/// place `Check` and names the first operation that passes.
pub fn dual_value(alloc: Global, program: &Program, dual: &Values) -> Result<Option<Frac>, Halt>
    ensures { AnswersOption (dual_walk (view_of (content program.now)) (at dual.now)) result }
{
    value_by(alloc, program, Costs::Own, dual)
}

/// What multipliers are worth where all costs are 0; else as `dual_value`.
pub fn zero_value(alloc: Global, program: &Program, ray: &Values) -> Result<Option<Frac>, Halt>
    ensures { AnswersOption (dual_walk (without_costs (view_of (content program.now))) (at ray.now)) result }
{
    value_by(alloc, program, Costs::Zero, ray)
}

fn answer(value: Result<Frac, Stop>) -> Result<Option<Frac>, Halt>
    ensures { AnswersOption value result }
{
    match value {
        Ok(sum) => Ok(Some(sum)),
        Err(stop) => stopped(stop),
    }
}

fn stopped(stop: Stop) -> Result<Option<Frac>, Halt>
    ensures { AnswersOption (Err stop) result }
{
    match stop {
        Stop::Decided => Ok(None),
        Stop::Passed(passed) => Err(Halt::Passed(Place::Check, passed)),
    }
}
