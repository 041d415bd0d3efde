//! The test of a point of a node's program.
ghost use Rattle.std.specs.Prelude.{◌≡◌, IfOk, OnOk};
ghost use Rattle.rationals.specs.Rational.{zero_ℚ, at_most, ◌≤ℚ◌, ◌+ℚ◌};
ghost use Rattle.rationals.specs.Intervals.{AtLeast, AtMost, Between};
ghost use Rattle.rationals.specs.Sparse.{coefficient};
ghost use Rattle.rationals.specs.Forms.{product_from};
ghost use Rattle.scen_defs.specs.Lists.{Each};
ghost use Rattle.cut_defs.specs.Data.{BoundsRise};
ghost use Rattle.node_lp.specs.Problem.{held, taken_of, taken, problem_of};
ghost use Rattle.node_lp.specs.Records.{place_cost, shared_cost, cost_at, Meets};
ghost use Rattle.node_lp.specs.Tests.{point_and_trial, IsKeptValue, MeetsRow, MeetsBounds, MeetsCut};

use crate::cutting::first;
use crate::program::is_taken;
use crate::solve::is_priced;
use crate::task::Task;
use cut_defs::{ColumnBounds, CutKind, Share};
use cut_proof::{ChildCuts, Cut, SharedCut};
use cut_sums::{is_own, near};
use frac128::{ArithmeticFault, Form, Frac, Passed, Term, Unfinished};
use interval_form::split;
use scen_defs::NodeRow;

/// Ends the test where a part of it fails.
pub(crate) fn at_most(a: Frac, b: Frac) -> Result<(), Unfinished>
    ensures { OnOk result (a ≤ℚ b) }
{
    if is_at_most(a, b) {
        Ok(())
    } else {
        Err(Unfinished::Walk)
    }
}

/// Whether a number is at most another.
pub(crate) fn is_at_most(a: Frac, b: Frac) -> bool
    ensures { result ≡ at_most a b }
{
    a <= b
}

/// A number is at least the low end.
fn test_low(low: Option<Frac>, number: Frac) -> Result<(), Unfinished>
    ensures { OnOk result (AtLeast low number) }
{
    match low {
        None => Ok(()),
        Some(low) => at_most(low, number),
    }
}

/// A number is at most the high end.
fn test_high(high: Option<Frac>, number: Frac) -> Result<(), Unfinished>
    ensures { OnOk result (AtMost high number) }
{
    match high {
        None => Ok(()),
        Some(high) => at_most(number, high),
    }
}

/// A number lies in an interval.
fn test_between(low: Option<Frac>, high: Option<Frac>, number: Frac) -> Result<(), Unfinished>
    ensures { OnOk result (Between low high number) }
{
    test_low(low, number)?;
    test_high(high, number)
}

/// The number and, entry by entry, the entry times the value of its column.
fn value_at(start: Frac, form: &[Term], values: &Form) -> Result<Frac, Passed>
    ensures { result ≡ product_from (coefficient values.now) start form.now }
{
    let mut sum = start;
    for term in form {
        sum = sum.add_product(term.value, values.get(term.column))?;
    }
    Ok(sum)
}

/// Why there is no sum.
fn unfinished(fault: ArithmeticFault) -> Unfinished {
    match fault {
        ArithmeticFault::Passed(_) => Unfinished::Walk,
        ArithmeticFault::Memory => Unfinished::Memory,
    }
}

/// The values of a point and of the trial together.
fn join(point: &Form, trial: &Form) -> Result<Form, Unfinished>
    ensures { IfOk result (λ at. coefficient at ≡ point_and_trial point.now trial.now) }
{
    match point.add_scaled(Frac::one(), trial) {
        Ok(at) => Ok(at),
        Err(fault) => Err(unfinished(fault)),
    }
}

/// A row lies within its ends.
fn test_row(row: &NodeRow, at: &Form) -> Result<(), Unfinished>
    ensures { OnOk result (MeetsRow at.now row.now) }
{
    let sum = value_at(Frac::zero(), row.entries.terms(), at)?;
    test_between(row.low, row.high, sum)
}

/// Each row does.
fn test_rows(rows: &[NodeRow], at: &Form) -> Result<(), Unfinished>
    ensures { OnOk result (Each (MeetsRow at.now) rows.now) }
{
    for row in rows {
        test_row(row, at)?;
    }
    Ok(())
}

/// Each own column lies within its bounds.
fn test_bounds(bounds: &[ColumnBounds], point: &Form) -> Result<(), Unfinished>
    ensures { OnOk result (Each (MeetsBounds point.now) bounds.now) }
{
    point.keeps_order();
    let terms = point.terms();
    let mut guess = 0;
    for bound in bounds {
        let found = near(terms, guess, bound.column as u64);
        guess = found.next;
        test_between(bound.lower, bound.upper, found.value)?;
    }
    Ok(())
}

/// A value is of an own column.
fn test_value(bounds: &[ColumnBounds], term: Term) -> Result<(), Unfinished>
    requires { BoundsRise 0 bounds.now }
    ensures { OnOk result (IsKeptValue bounds.now term) }
{
    let _kept = term.value.over_one();
    if is_own(bounds, term.column) {
        Ok(())
    } else {
        Err(Unfinished::Walk)
    }
}

/// Each value is of an own column.
pub(crate) fn test_values(bounds: &[ColumnBounds], terms: &[Term]) -> Result<(), Unfinished>
    requires { BoundsRise 0 bounds.now }
    ensures { OnOk result (Each (IsKeptValue bounds.now) terms.now) }
{
    for term in terms {
        test_value(bounds, *term)?;
    }
    Ok(())
}

/// The cost of the child at a place, 0 where there is none.
fn child_cost(costs: &[Frac], place: usize) -> Frac
    ensures { result ≡ place_cost costs.now place }
{
    if place < costs.len() {
        costs[place]
    } else {
        Frac::zero()
    }
}

/// A cut about the child at a place lies below its cost.
fn test_cut(place: usize, costs: &[Frac], cut: &Cut, at: &Form) -> Result<(), Unfinished>
    ensures { OnOk result (MeetsCut at.now costs.now (record { child = place; cut = held cut.now })) }
{
    let value = value_at(cut.constant(), cut.form().terms(), at)?;
    match cut.kind() {
        CutKind::Bound => at_most(value, child_cost(costs, place)),
        CutKind::Ray => at_most(value, Frac::zero()),
    }
}

/// The cuts about the child at a place that the program takes do.
fn test_cuts(
    priced: bool,
    place: usize,
    costs: &[Frac],
    cuts: &[SharedCut],
    at: &Form,
) -> Result<(), Unfinished>
    ensures { OnOk result (Each (MeetsCut at.now costs.now) (taken_of priced place cuts.now)) }
{
    for cut in cuts {
        let cut = cut.cut();
        if is_taken(priced, cut.kind()) {
            test_cut(place, costs, cut, at)?;
        }
    }
    Ok(())
}

/// Those about all children do.
fn test_children(
    priced: bool,
    costs: &[Frac],
    children: &[ChildCuts],
    at: &Form,
) -> Result<(), Unfinished>
    ensures { OnOk result (Each (MeetsCut at.now costs.now) (taken priced 0 children.now)) }
{
    for (place, child) in children.iter().enumerate() {
        test_cuts(priced, place, costs, &child.cuts, at)?;
    }
    Ok(())
}

/// A point meets the rows, bounds and cuts of a node's program, where its children cost so much.
pub(crate) fn test_point(task: &Task, point: &Form, costs: &[Frac]) -> Result<(), Unfinished>
    ensures { OnOk result (Meets (problem_of task.now) point.now costs.now) }
{
    let datum = &task.datum;
    let at = join(point, &task.trial)?;
    test_bounds(datum.bounds(), point)?;
    test_rows(datum.rows(), &at)?;
    test_children(is_priced(task.kind), costs, &task.children, &at)
}

/// A number and the shares times the children's costs.
fn shared_cost(start: Frac, shares: &[Share], costs: &[Frac]) -> Result<Frac, Passed>
    ensures { IfOk result (λ sum. sum ≡ start +ℚ shared_cost shares.now costs.now) }
{
    let mut sum = start;
    let mut left = costs;
    for share in shares {
        sum = sum.add_product(share.share, first(left))?;
        let (_this, others) = split(left, 1);
        left = others;
    }
    Ok(sum)
}

/// What a point costs, where the children cost so much.
pub(crate) fn point_cost(task: &Task, point: &Form, costs: &[Frac]) -> Result<Frac, Passed>
    ensures { IfOk result (λ value. value ≡ cost_at (problem_of task.now) point.now costs.now) }
{
    let datum = &task.datum;
    let own = value_at(Frac::zero(), datum.cost().terms(), point)?;
    shared_cost(own, datum.shares(), costs)
}
