//! The test of what a quick solve says of a node's program.
ghost use Rattle.std.specs.Prelude.{◌≡◌, true, false, IfOk, IfSome, OnOk};
ghost use Rattle.rationals.specs.Rational.{zero_ℚ, ◌<ℚ◌};
ghost use Rattle.node_lp.specs.Problem.{IsProblem, problem_of};
ghost use Rattle.node_lp.specs.Tested.{IsToldOf};
ghost use Rattle.node_lp.specs.Answers.{IsAnswer};

use crate::found::Multipliers;
use crate::guess::Guess;
use crate::point_tests::{is_at_most, point_cost, test_point, test_values};
use crate::shown::{equal, shown_cut};
use crate::solve::is_priced;
use crate::solved::Solved;
use crate::task::Task;
use cut_defs::CutKind;
use frac128::{Form, Frac, Memory, Unfinished};
use std::alloc::Global;

/// A number is above 0.
fn above_zero(number: Frac) -> Result<(), Unfinished>
    ensures { OnOk result (zero_ℚ <ℚ number) }
{
    if is_at_most(number, Frac::zero()) {
        Err(Unfinished::Walk)
    } else {
        Ok(())
    }
}

/// A point that is tested, with the cut whose value at the trial is the point's cost.
fn priced_point(
    alloc: Global,
    task: &Task,
    point: Form,
    costs: &[Frac],
    multipliers: Multipliers,
) -> Result<Solved, Unfinished>
    requires problem { IsProblem (problem_of task.now) }
    requires priced { (problem_of task.now).priced ≡ true }
    ensures told { IfOk result (IsToldOf task.now) }
    ensures answer { IfOk result (IsAnswer task.now) }
{
    point.keeps_order();
    test_values(task.datum.bounds(), point.terms())?;
    test_point(task, &point, costs)?;
    let value = point_cost(task, &point, costs)?;
    let cut = shown_cut(alloc, task, CutKind::Bound, multipliers)?;
    let bound = cut.cut().at(&task.trial)?;
    equal(bound, value)?;
    Ok(Solved::Point {
        point,
        value,
        cut: Some(cut),
    })
}

/// A point that is tested, where no child is priced.
fn lone_point(task: &Task, point: Form, costs: &[Frac]) -> Result<Solved, Unfinished>
    requires problem { IsProblem (problem_of task.now) }
    requires priced { (problem_of task.now).priced ≡ false }
    ensures told { IfOk result (IsToldOf task.now) }
    ensures answer { IfOk result (IsAnswer task.now) }
{
    point.keeps_order();
    test_values(task.datum.bounds(), point.terms())?;
    test_point(task, &point, costs)?;
    let value = point_cost(task, &point, costs)?;
    Ok(Solved::Point {
        point,
        value,
        cut: None,
    })
}

/// Multipliers that are tested, with their cut, whose value at the trial is above 0.
fn no_point(alloc: Global, task: &Task, multipliers: Multipliers) -> Result<Solved, Unfinished>
    requires { IsProblem (problem_of task.now) }
    ensures told { IfOk result (IsToldOf task.now) }
    ensures answer { IfOk result (IsAnswer task.now) }
{
    let cut = shown_cut(alloc, task, CutKind::Ray, multipliers)?;
    let bound = cut.cut().at(&task.trial)?;
    above_zero(bound)?;
    Ok(Solved::NoPoint { cut })
}

/// What is told of a guess that stands its test.
fn told(alloc: Global, task: &Task, guess: Guess) -> Result<Solved, Unfinished>
    requires { IsProblem (problem_of task.now) }
    ensures told { IfOk result (IsToldOf task.now) }
    ensures answer { IfOk result (IsAnswer task.now) }
{
    match guess {
        Guess::Point {
            point,
            costs,
            multipliers,
        } => {
            if is_priced(task.kind) {
                priced_point(alloc, task, point, &costs, multipliers)
            } else {
                lone_point(task, point, &costs)
            }
        }
        Guess::NoPoint(multipliers) => no_point(alloc, task, multipliers),
    }
}

/// What is told of a guess, if it stands its test. An operation that passes 128 bits fails the test.
pub(crate) fn tested(alloc: Global, task: &Task, guess: Guess) -> Result<Option<Solved>, Memory>
    requires { IsProblem (problem_of task.now) }
    ensures told { IfOk result (λ all. IfSome all (IsToldOf task.now)) }
    ensures answer { IfOk result (λ all. IfSome all (IsAnswer task.now)) }
{
    match told(alloc, task, guess) {
        Ok(solved) => Ok(Some(solved)),
        Err(Unfinished::Walk) => Ok(None),
        Err(Unfinished::Memory) => Err(Memory),
    }
}
