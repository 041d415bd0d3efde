// Whether a policy meets all rows and bounds.
ghost use Rattle.std.specs.Prelude.{◌≡◌, Ok, Err, true, false, IfOk};
ghost use Rattle.rationals.specs.Rational.{zero_ℚ};
ghost use Rattle.scen_defs.specs.Values.{at};
ghost use Rattle.scen_defs.specs.Flat.{along};
ghost use Rattle.scen_defs.specs.Program.{content, view_of};
ghost use Rattle.scen_model.specs.Answers.{AnswersTest};
ghost use Rattle.rationals.specs.Forms.{product_from};
ghost use Rattle.scen_model.specs.Walks.{end_of, is_between, test, rows_test, all_rows_test};
ghost use Rattle.scen_model.specs.Walks.{bounds_test, all_bounds_test, meets_walk, feasible_walk, direction_walk};
ghost use Rattle.scen_model.specs.Gathered.{falls_walk};

use crate::costs::cost_of;
use crate::ends::is_at_most;
use crate::stop::Stop;
use frac128::{Frac, Memory, Passed, Term};
use scen_defs::{Halt, NodeRow, Place, Program, Values};
use scen_nodes::{home, stage};
use std::alloc::Global;

/// Which ends of intervals count.
#[derive(Clone, Copy)]
pub(crate) enum Ends {
    /// Their own.
    Own,
    /// 0 in place of each finite one.
    Zero,
}

fn end_of(ends: Ends, end: Option<Frac>) -> Option<Frac>
    ensures { result ≡ end_of ends end }
{
    match (ends, end) {
        (Ends::Own, _) => end,
        (Ends::Zero, Some(_)) => Some(Frac::zero()),
        (Ends::Zero, None) => None,
    }
}

/// Whether a number lies in an interval.
fn is_between(low: Option<Frac>, high: Option<Frac>, number: Frac) -> bool
    ensures { result ≡ is_between low high number }
{
    let above = match low {
        Some(low) => is_at_most(low, number),
        None => true,
    };
    let below = match high {
        Some(high) => is_at_most(number, high),
        None => true,
    };
    above && below
}

/// Ends the computation where a test fails.
fn test(holds: bool) -> Result<(), Stop>
    ensures { result ≡ test holds }
{
    if holds { Ok(()) } else { Err(Stop::Decided) }
}

/// Ends the computation where a number does not lie in its interval.
fn test_number(ends: Ends, low: Option<Frac>, high: Option<Frac>, number: Frac) -> Result<(), Stop>
    ensures { result ≡ test (is_between (end_of ends low) (end_of ends high) number) }
{
    test(is_between(end_of(ends, low), end_of(ends, high), number))
}

/// The sum of entry times value along the path of a node; values of one node are met one behind the other, from the place `near` on.
fn row_sum(
    program: &Program,
    entries: &[Term],
    values: &Values,
    node: u64,
    near: &mut usize,
) -> Result<Frac, Passed>
    ensures { result ≡ product_from (along (view_of (content program.now)) (at values.now) node) zero_ℚ entries.now }
{
    let mut sum = Frac::zero();
    for term in entries {
        let value = values.get_near(home(program, node, term.column), term.column, near);
        sum = sum.add_product(term.value, value)?;
    }
    Ok(sum)
}

/// The rows of a node, in order.
fn test_rows(
    program: &Program,
    ends: Ends,
    rows: &[NodeRow],
    values: &Values,
    node: u64,
    near: &mut usize,
) -> Result<(), Stop>
    ensures { result ≡ rows_test (end_of ends) (along (view_of (content program.now)) (at values.now) node) rows.now }
{
    for row in rows {
        let sum = row_sum(program, row.entries.terms(), values, node, near)?;
        test_number(ends, row.low, row.high, sum)?;
    }
    Ok(())
}

/// The rows of all nodes.
fn test_all_rows(program: &Program, ends: Ends, values: &Values) -> Result<(), Stop>
    ensures { result ≡ all_rows_test (end_of ends) (view_of (content program.now)) (at values.now) }
{
    let mut near = 0;
    for (place, slot) in program.nodes.iter().enumerate() {
        if let Some(node) = slot {
            test_rows(program, ends, &node.rows, values, place as u64, &mut near)?;
        }
    }
    Ok(())
}

/// The bounds of the columns of a node's stage.
fn test_bounds(
    program: &Program,
    ends: Ends,
    values: &Values,
    node: u64,
    near: &mut usize,
) -> Result<(), Stop>
    ensures { result ≡ bounds_test (end_of ends) (view_of (content program.now)) (at values.now) node }
{
    let stage = stage(program, node);
    for (place, column) in program.columns.iter().enumerate() {
        if column.stage == stage {
            let value = values.get_near(node, place as u64, near);
            test_number(ends, column.lower, column.upper, value)?;
        }
    }
    Ok(())
}

/// The bounds of all nodes.
fn test_all_bounds(program: &Program, ends: Ends, values: &Values) -> Result<(), Stop>
    ensures { result ≡ all_bounds_test (end_of ends) (view_of (content program.now)) (at values.now) }
{
    let mut near = 0;
    for (place, slot) in program.nodes.iter().enumerate() {
        if slot.is_some() {
            test_bounds(program, ends, values, place as u64, &mut near)?;
        }
    }
    Ok(())
}

/// All bounds, and then all rows.
fn test_all(program: &Program, ends: Ends, values: &Values) -> Result<(), Stop>
    ensures { result ≡ meets_walk (end_of ends) (view_of (content program.now)) (at values.now) }
{
    test_all_bounds(program, ends, values)?;
    test_all_rows(program, ends, values)
}

/// The cost, and whether it is below 0.
fn test_cost(alloc: Global, program: &Program, values: &Values) -> Result<Result<(), Stop>, Memory>
    ensures { IfOk result (λ tested. tested ≡ falls_walk (view_of (content program.now)) (at values.now)) }
{
    match cost_of(alloc, program, values) {
        Ok(Ok(cost)) => Ok(test(!is_at_most(Frac::zero(), cost))),
        Ok(Err(passed)) => Ok(Err(Stop::Passed(passed))),
        Err(memory) => Err(memory),
    }
}

/// The bounds and rows with zero ends, and then the cost.
fn test_direction(
    alloc: Global,
    program: &Program,
    values: &Values,
) -> Result<Result<(), Stop>, Memory>
    ensures { IfOk result (λ tested. tested ≡ direction_walk (view_of (content program.now)) (at values.now)) }
{
    match test_all(program, Ends::Zero, values) {
        Ok(()) => test_cost(alloc, program, values),
        Err(stop) => Ok(Err(stop)),
    }
}

/// Whether every value lies in its bounds, and every row's sum along the path in its interval.
///
/// First come the bounds, which take no operation; then the rows by node and row, the sum of each by column.
/// What comes first decides: a test that fails, or an operation that passes. `Passed` has place `Check`.
pub fn feasible(_alloc: Global, program: &Program, policy: &Values) -> Result<bool, Halt>
    ensures { AnswersTest (feasible_walk (view_of (content program.now)) (at policy.now)) result }
{
    answer(test_all(program, Ends::Own, policy))
}

/// Whether a direction is feasible where each finite interval end and bound is 0, and its cost below 0.
///
/// In the order of `feasible` and then of `cost`; what comes first decides, a test that fails or an
/// operation that passes. `Passed` has place `Check`.
pub fn is_direction(alloc: Global, program: &Program, direction: &Values) -> Result<bool, Halt>
    ensures { AnswersTest (direction_walk (view_of (content program.now)) (at direction.now)) result }
{
    match test_direction(alloc, program, direction) {
        Ok(tested) => answer(tested),
        Err(_memory) => Err(Halt::Memory),
    }
}

fn answer(tested: Result<(), Stop>) -> Result<bool, Halt>
    ensures { AnswersTest tested result }
{
    match tested {
        Ok(()) => Ok(true),
        Err(stop) => stopped(stop),
    }
}

fn stopped(stop: Stop) -> Result<bool, Halt>
    ensures { AnswersTest (Err stop) result }
{
    match stop {
        Stop::Decided => Ok(false),
        Stop::Passed(passed) => Err(Halt::Passed(Place::Check, passed)),
    }
}
