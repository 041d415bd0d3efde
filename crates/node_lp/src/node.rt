//! The solve of a node's program.
ghost use Rattle.std.specs.Prelude.{◌≡◌, IfOk, IfSome};
ghost use Rattle.node_lp.specs.Problem.{IsProblem, problem_of};
ghost use Rattle.node_lp.specs.declared.found.Found.TheVariants as found;
ghost use Rattle.node_lp.specs.Shows.{IsSound};
ghost use Rattle.node_lp.specs.Answers.{IsAnswer};
ghost use Rattle.node_lp.specs.Told.{told_of, node_solved};
ghost use Rattle.node_lp.specs.Tested.{IsToldOf};
ghost use Rattle.node_lp.specs.ToldFaults.{StoppedInCut};
ghost use Rattle.node_lp.specs.Walk.{found_in};

use crate::cutting::cut_of;
use crate::found::{Found, Multipliers};
use crate::guess::Guess;
use crate::solve::{find, is_priced};
use crate::solved::Solved;
use crate::task::Task;
use crate::tested::tested;
use cut_defs::CutKind;
use cut_proof::CutFault;
use frac128::{Form, Frac, Memory};
use std::alloc::Global;

/// What is told where the making of a cut ends.
fn stopped_in_cut(fault: CutFault) -> Result<Solved, Memory>
    ensures { IfOk result (StoppedInCut fault) }
{
    match fault {
        CutFault::NotGood => Ok(Solved::NotGood),
        CutFault::Passed(passed) => Ok(Solved::Passed {
            in_cut: true,
            passed,
        }),
        CutFault::Memory => Err(Memory),
    }
}

/// What is told of a point.
fn with_point(
    alloc: Global,
    task: &Task,
    point: Form,
    value: Frac,
    multipliers: Multipliers,
) -> Result<Solved, Memory>
    requires problem { IsProblem (problem_of task.now) }
    requires sound { IsSound (problem_of task.now) (found.Point point value multipliers) }
    ensures told { IfOk result (λ all. all ≡ told_of task.now (found.Point point value multipliers)) }
    ensures answer { IfOk result (IsAnswer task.now) }
{
    if is_priced(task.kind) {
        match cut_of(alloc, task, CutKind::Bound, multipliers) {
            Ok(cut) => Ok(Solved::Point {
                point,
                value,
                cut: Some(cut),
            }),
            Err(fault) => stopped_in_cut(fault),
        }
    } else {
        Ok(Solved::Point {
            point,
            value,
            cut: None,
        })
    }
}

/// What is told where there is no point.
fn without_point(alloc: Global, task: &Task, multipliers: Multipliers) -> Result<Solved, Memory>
    requires problem { IsProblem (problem_of task.now) }
    requires sound { IsSound (problem_of task.now) (found.NoPoint multipliers) }
    ensures told { IfOk result (λ all. all ≡ told_of task.now (found.NoPoint multipliers)) }
    ensures answer { IfOk result (IsAnswer task.now) }
{
    match cut_of(alloc, task, CutKind::Ray, multipliers) {
        Ok(cut) => Ok(Solved::NoPoint { cut }),
        Err(fault) => stopped_in_cut(fault),
    }
}

/// Solves a node's program by its path, in at most `pivots` pivots.
///
/// New columns, which are at least 0, stand for the own columns in order: a column with a lower bound is that
/// bound and a new column; else one with an upper bound is that bound less a new column; else it is the
/// difference of two. Then, except in a Feasible run, the cost of each child is the difference of two new
/// columns. The rows are, in order, of each own row one equation where its ends are equal, else one row for its
/// low end and one for its high end, where these are there; then child by child the cuts in their order, but in a
/// Feasible run none that bounds a cost; then for each own column with two bounds the row that its new column is
/// at most their difference.
///
/// A right side begins with the end or the constant; then come the terms of the trial by column, then those of the
/// shifts by column. The simplex method then follows its path. Behind it come the own rows' multipliers by row;
/// then, where it ends at an optimum, the point by column, and its value: costs by column, then by child the share
/// times the child's cost; and where there is no point, the operations that show it.
///
/// Last comes the cut, by `Cut::of`: its record is of the datum's node and versions; its multipliers are those of
/// the own rows; it uses, child by child and in their order, the cuts whose weight isn't 0. It is a Bound cut where
/// there is a point, but none is made in a Feasible run, and a Ray cut where there is none. The first of all these
/// operations that passes 128 bits is told, and whether it is one of the cut's.
fn path_solved(alloc: Global, task: &Task) -> Result<Solved, Memory>
    requires { IsProblem (problem_of task.now) }
    ensures exact { IfOk result (λ all. all ≡ node_solved task.now) }
    ensures sound { IfOk result (λ _. IsSound (problem_of task.now) (found_in (problem_of task.now) task.now.pivots)) }
    ensures answer { IfOk result (IsAnswer task.now) }
{
    match find(alloc, task)? {
        Found::Point(point, value, multipliers) => {
            with_point(alloc, task, point, value, multipliers)
        }
        Found::NoPoint(multipliers) => without_point(alloc, task, multipliers),
        Found::Loose => Ok(Solved::Loose),
        Found::PivotsEnded => Ok(Solved::PivotsEnded),
        Found::Passed(passed) => Ok(Solved::Passed {
            in_cut: false,
            passed,
        }),
    }
}

/// What is told of a guess that stands its test.
fn guess_solved(alloc: Global, task: &Task, guess: Option<Guess>) -> Result<Option<Solved>, Memory>
    requires { IsProblem (problem_of task.now) }
    ensures told { IfOk result (λ all. IfSome all (IsToldOf task.now)) }
    ensures answer { IfOk result (λ all. IfSome all (IsAnswer task.now)) }
{
    match guess {
        Some(guess) => tested(alloc, task, guess),
        None => Ok(None),
    }
}

/// Solves a node's program: by a guess, where there is one and it stands its test; else by the path, in at most `pivots` pivots.
pub fn solve_node(alloc: Global, task: &Task, guess: Option<Guess>) -> Result<Solved, Memory>
    requires { IsProblem (problem_of task.now) }
    ensures told { IfOk result (IsToldOf task.now) }
    ensures answer { IfOk result (IsAnswer task.now) }
{
    match guess_solved(alloc, task, guess)? {
        Some(solved) => Ok(solved),
        None => path_solved(alloc, task),
    }
}
