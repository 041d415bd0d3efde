//! The solve of a node's program.
ghost use Rattle.std.specs.Prelude.{◌≡◌, ◌<◌, ◌≤◌, ◌+◌, ◌^◌, [], length, IfOk, MatchResult, Ok};
ghost use Rattle.rationals.specs.Sparse.{coefficient};
ghost use Rattle.rationals.specs.Choices.{pick};
ghost use Rattle.frac128.specs.Faults.{FaultOf, IfNotMemory};
ghost use Rattle.lp_defs.specs.Solution.{Solution};
ghost use Rattle.simplex_core.specs.Told.{Tells, Shows as ShowsItself};
ghost use Rattle.scen_defs.specs.Lists.{Each};
ghost use Rattle.cut_defs.specs.Data.{BoundsRise};
ghost use Rattle.interval_form.specs.Parts.{AreParts, behind_all, parts_from, spread_form};
ghost use Rattle.interval_form.specs.Rows.{HasForm};
ghost use Rattle.slack_form.specs.Standard.{standard_of};
ghost use Rattle.interval_form.specs.Plain.{IsWritten};
ghost use Rattle.node_lp.specs.Problem.{IsProblem, is_priced, problem_of, taken};
ghost use Rattle.node_lp.specs.Plain.{frees, all_bounds, all_costs, plain_of};
ghost use Rattle.node_lp.specs.Walk.{made_walk, AreCuts, rows_walk, node_parts, best_walk, nowhere_walk, end_walk, solve_walk, found_in};
ghost use Rattle.node_lp.specs.Shows.{IsSound};

use crate::ends::{cost, own_multipliers, point, weights};
use crate::found::{Found, Multipliers};
use crate::program::{all_bounds, cost_terms, push_children};
use crate::task::Task;
use cut_defs::{ColumnBounds, Share};
use cut_proof::ChildCuts;
use farkas_ray::is_ray;
use frac128::{ArithmeticFault, Form, Frac, Memory};
use interval_form::{Part, behind_own, own_limits, parts, push_bounds};
use scen_defs::{Kind, NodeRow};
use simplex_core::{Outcome, Standard, solve};
use slack_form::{Limit, Limits, own_duals, standard};
use std::alloc::Global;

/// More rows than this are never made: there is no memory for them.
const MANY: usize = 1 << 61;

/// Whether the children have costs of their own: not in a Feasible run.
pub(crate) fn is_priced(kind: Kind) -> bool
    ensures { result ≡ is_priced kind }
{
    match kind {
        Kind::Feasible => false,
        Kind::Recession | Kind::Cost => true,
    }
}

/// The rows of the program, how many of them are cuts, and how many new columns there are.
#[derive(Drop)]
struct Limited {
    rows: Vec<Limit>,
    cuts: usize,
    columns: u64,
}

/// The own rows, the cuts child by child, and the bounds, operation by operation.
fn make_limits(
    alloc: Global,
    priced: bool,
    bounds: &[ColumnBounds],
    parts: &[Part],
    trial: &Form,
    rows: &[NodeRow],
    shares: &[Share],
    children: &[ChildCuts],
    all: &[ColumnBounds],
) -> Result<Limited, ArithmeticFault>
    requires parts { AreParts 0 parts.now }
    requires one_each { length bounds.now ≤ length parts.now }
    requires rises { BoundsRise 0 bounds.now }
    requires forms { Each HasForm rows.now }
    requires count { length parts.now ≡ length bounds.now + length (pick priced (frees shares.now) []) }
    requires few_bounds { length bounds.now < 2 ^ 32 }
    requires few { length all.now < 2 ^ 60 }
    requires cuts { AreCuts priced shares.now 0 children.now }
    ensures exact { MatchResult result
        (λ r. made_walk priced bounds.now parts.now trial.now rows.now children.now all.now ≡ Ok r.rows.items)
        (FaultOf (made_walk priced bounds.now parts.now trial.now rows.now children.now all.now)) }
    ensures cuts { IfOk result (λ r. r.cuts ≡ length (taken priced 0 children.now)) }
    ensures columns { IfOk result (λ r. r.columns ≡ behind_all 0 (parts_from 0 all.now)) }
{
    let mut limits = own_limits(alloc, bounds, parts, trial, rows)?;
    let own = limits.len();
    push_children(
        alloc,
        bounds,
        parts,
        trial,
        priced,
        shares,
        children,
        &mut limits,
    )?;
    let cuts = limits.len() - own;
    let columns = push_bounds(alloc, all, &mut limits)?;
    Ok(Limited {
        rows: limits,
        cuts,
        columns,
    })
}

/// The rows of the program and its cost, and how many of the rows are cuts.
#[derive(Drop)]
struct Made {
    limits: Limits,
    cuts: usize,
}

/// Makes the rows, operation by operation, and the cost.
fn make_rows(
    alloc: Global,
    task: &Task,
    all: &[ColumnBounds],
    parts: &[Part],
) -> Result<Made, ArithmeticFault>
    requires problem { IsProblem (problem_of task.now) }
    requires all { all.now ≡ all_bounds (problem_of task.now) }
    requires parts { parts.now ≡ node_parts (problem_of task.now) }
    ensures exact { MatchResult result
        (λ r. rows_walk (problem_of task.now) ≡ Ok r.limits.rows.items)
        (FaultOf (rows_walk (problem_of task.now))) }
    ensures written { IfOk result (λ r. IsWritten (plain_of (problem_of task.now)) r.limits) }
    ensures cuts { IfOk result (λ r. r.cuts ≡ length (problem_of task.now).cuts) }
{
    let priced = is_priced(task.kind);
    let limited = limits_of(alloc, task, priced, all, parts)?;
    if limited.rows.len() >= MANY {
        return Err(ArithmeticFault::Memory);
    }
    let cost = cost_of(alloc, task, priced, parts)?;
    Ok(Made {
        limits: Limits {
            columns: limited.columns,
            rows: limited.rows,
            cost,
        },
        cuts: limited.cuts,
    })
}

/// The rows of the task's program.
fn limits_of(
    alloc: Global,
    task: &Task,
    priced: bool,
    all: &[ColumnBounds],
    parts: &[Part],
) -> Result<Limited, ArithmeticFault>
    requires problem { IsProblem (problem_of task.now) }
    requires priced { priced ≡ is_priced task.now.kind }
    requires all { all.now ≡ all_bounds (problem_of task.now) }
    requires parts { parts.now ≡ node_parts (problem_of task.now) }
    ensures exact { MatchResult result
        (λ r. rows_walk (problem_of task.now) ≡ Ok r.rows.items)
        (FaultOf (rows_walk (problem_of task.now))) }
    ensures cuts { IfOk result (λ r. r.cuts ≡ length (problem_of task.now).cuts) }
    ensures columns { IfOk result (λ r. r.columns ≡ behind_all 0 (node_parts (problem_of task.now))) }
{
    let datum = &task.datum;
    make_limits(
        alloc,
        priced,
        datum.bounds(),
        parts,
        &task.trial,
        datum.rows(),
        datum.shares(),
        &task.children,
        all,
    )
}

/// The costs of the task's new columns.
fn cost_of(alloc: Global, task: &Task, priced: bool, parts: &[Part]) -> Result<Form, Memory>
    requires problem { IsProblem (problem_of task.now) }
    requires priced { priced ≡ is_priced task.now.kind }
    requires parts { parts.now ≡ node_parts (problem_of task.now) }
    ensures { IfOk result (λ form. form ≡ spread_form parts.now (all_costs (problem_of task.now))) }
{
    let datum = &task.datum;
    let terms = cost_terms(
        alloc,
        datum.bounds(),
        parts,
        priced,
        datum.cost(),
        datum.shares(),
    )?;
    Ok(Form::from_terms(alloc, terms))
}

/// Of an optimum: the multipliers, then the point, then the value.
fn best(
    alloc: Global,
    task: &Task,
    parts: &[Part],
    rows: &Made,
    found: &Form,
    duals: &[Frac],
) -> Result<Found, ArithmeticFault>
    requires problem { IsProblem (problem_of task.now) }
    requires parts { parts.now ≡ node_parts (problem_of task.now) }
    requires cuts { rows.now.cuts ≡ length (problem_of task.now).cuts }
    requires one_each { length duals.now ≡ length rows.now.limits.rows.items }
    ensures { IfNotMemory result (best_walk (problem_of task.now) rows.now.limits.rows.items (coefficient found.now) duals.now) }
{
    let datum = &task.datum;
    let signed = own_duals(alloc, &rows.limits, duals)?;
    let own = own_multipliers(alloc, datum.rows(), &signed)?;
    let values = point(alloc, datum.bounds(), parts, found)?;
    let priced = is_priced(task.kind);
    let columns = datum.bounds().len() as u64;
    let value = cost(
        priced,
        columns,
        datum.cost(),
        datum.shares(),
        parts,
        found,
        &values,
    )?;
    let weights = weights(alloc, behind_own(datum.rows(), &signed), rows.cuts)?;
    Ok(Found::Point(values, value, Multipliers { rows: own, weights }))
}

/// Of an infeasible end: the multipliers, which are tested.
fn nowhere(
    alloc: Global,
    task: &Task,
    rows: &Made,
    standard: &Standard,
    duals: &[Frac],
) -> Result<Found, ArithmeticFault>
    requires problem { IsProblem (problem_of task.now) }
    requires cuts { rows.now.cuts ≡ length (problem_of task.now).cuts }
    requires one_each { length duals.now ≡ length rows.now.limits.rows.items }
    requires each_row { length duals.now ≡ length standard.now.rows }
    ensures { IfNotMemory result (nowhere_walk (problem_of task.now) rows.now.limits.rows.items standard.now duals.now) }
{
    let signed = own_duals(alloc, &rows.limits, duals)?;
    let own = own_multipliers(alloc, task.datum.rows(), &signed)?;
    let _is_shown = is_ray(standard, duals)?;
    let weights = weights(alloc, behind_own(task.datum.rows(), &signed), rows.cuts)?;
    Ok(Found::NoPoint(Multipliers { rows: own, weights }))
}

/// What is made of the end of the path.
#[tactic(auto, using(slack_form::proofs::Equations::equations_length))]
fn ended(
    alloc: Global,
    task: &Task,
    parts: &[Part],
    rows: &Made,
    standard: &Standard,
    outcome: Outcome,
) -> Result<Found, ArithmeticFault>
    requires problem { IsProblem (problem_of task.now) }
    requires parts { parts.now ≡ node_parts (problem_of task.now) }
    requires cuts { rows.now.cuts ≡ length (problem_of task.now).cuts }
    requires standard { standard.now ≡ standard_of rows.now.limits }
    requires shows { ShowsItself standard.now outcome }
    ensures { (end : Solution) → Tells end outcome
        → IfNotMemory result (end_walk (problem_of task.now) rows.now.limits.rows.items standard.now end) }
{
    match outcome {
        Outcome::Optimal { point, duals } => best(alloc, task, parts, rows, &point, &duals),
        Outcome::Infeasible { duals } => nowhere(alloc, task, rows, standard, &duals),
        Outcome::Unbounded {
            point: _point,
            ray: _ray,
        } => Ok(Found::Loose),
        Outcome::PivotsEnded => Ok(Found::PivotsEnded),
        Outcome::Passed(_pivot, passed) => Err(ArithmeticFault::Passed(passed)),
    }
}

/// Follows the path of the program's standard form.
fn followed(alloc: Global, task: &Task) -> Result<Found, ArithmeticFault>
    requires { IsProblem (problem_of task.now) }
    ensures exact { IfNotMemory result (solve_walk (problem_of task.now) task.now.pivots) }
    ensures sound { IfOk result (IsSound (problem_of task.now)) }
{
    let datum = &task.datum;
    let all = all_bounds(alloc, datum.bounds(), datum.shares(), is_priced(task.kind))?;
    let parts = parts(alloc, &all)?;
    let rows = make_rows(alloc, task, &all, &parts)?;
    let standard = standard(alloc, &rows.limits)?;
    let outcome = solve(alloc, &standard, task.pivots)?;
    ended(alloc, task, &parts, &rows, &standard, outcome)
}

/// Finds the point of a node's program, or what shows that there is none, in at most `pivots` pivots.
pub(crate) fn find(alloc: Global, task: &Task) -> Result<Found, Memory>
    requires { IsProblem (problem_of task.now) }
    ensures exact { IfOk result (λ all. all ≡ found_in (problem_of task.now) task.now.pivots) }
    ensures sound { IfOk result (IsSound (problem_of task.now)) }
{
    match followed(alloc, task) {
        Ok(found) => Ok(found),
        Err(fault) => match fault {
            ArithmeticFault::Passed(passed) => Ok(Found::Passed(passed)),
            ArithmeticFault::Memory => Err(Memory),
        },
    }
}
