//! The solve of a node's program with a guess.
ghost use Rattle.std.specs.Prelude.{IfOk};
ghost use Rattle.node_lp.specs.Problem.{IsProblem, problem_of};
ghost use Rattle.node_lp.specs.Tested.{IsToldOf};
ghost use Rattle.node_lp.specs.Answers.{IsAnswer};

use crate::again::again;
use crate::hints::LentHint;
use crate::rounds::try_guess;
use crate::sizes::{is_small, work};
use frac128::Memory;
use node_draft::Hint;
use node_lp::{Solved, Task, solve_node};
use std::alloc::Global;

/// Whether an operation of the path passed 128 bits.
fn is_passed(solved: &Solved) -> bool {
    match solved {
        Solved::Passed {
            in_cut: _in_cut,
            passed: _passed,
        } => true,
        _ => false,
    }
}

/// What the path told, or what a guess tells that stands its test.
fn guessed_behind(
    alloc: Global,
    task: &Task,
    hint: Option<Hint>,
    first: Solved,
) -> Result<(Solved, Option<Hint>), Memory>
    requires problem { IsProblem (problem_of task.now) }
    requires told { IsToldOf task.now first }
    requires answer { IsAnswer task.now first }
    ensures told { IfOk result (λ all. IsToldOf task.now all.0) }
    ensures answer { IfOk result (λ all. IsAnswer task.now all.0) }
{
    let attempt = try_guess(alloc, task, hint, work(task))?;
    if attempt.guess.is_none() {
        return Ok((first, attempt.hint));
    }
    let solved = solve_node(alloc, task, attempt.guess)?;
    Ok((solved, attempt.hint))
}

/// Solves a small program: by its path, and by a guess only where an operation of the path passes.
fn small(alloc: Global, task: &Task, hint: Option<Hint>) -> Result<(Solved, Option<Hint>), Memory>
    requires { IsProblem (problem_of task.now) }
    ensures told { IfOk result (λ all. IsToldOf task.now all.0) }
    ensures answer { IfOk result (λ all. IsAnswer task.now all.0) }
{
    let first = solve_node(alloc, task, None)?;
    if is_passed(&first) {
        guessed_behind(alloc, task, hint, first)
    } else {
        Ok((first, hint))
    }
}

/// Solves a program by a guess; where there is none or it fails its test, by its path.
fn guessed_first(
    alloc: Global,
    task: &Task,
    hint: Option<Hint>,
) -> Result<(Solved, Option<Hint>), Memory>
    requires { IsProblem (problem_of task.now) }
    ensures told { IfOk result (λ all. IsToldOf task.now all.0) }
    ensures answer { IfOk result (λ all. IsAnswer task.now all.0) }
{
    let attempt = try_guess(alloc, task, hint, work(task))?;
    let solved = solve_node(alloc, task, attempt.guess)?;
    Ok((solved, attempt.hint))
}

/// The solve, and what the node's next one begins with.
fn solved_from(
    alloc: Global,
    task: &Task,
    hint: Option<Hint>,
    are_few: bool,
) -> Result<(Solved, Option<Hint>), Memory>
    requires { IsProblem (problem_of task.now) }
    ensures told { IfOk result (λ all. IsToldOf task.now all.0) }
    ensures answer { IfOk result (λ all. IsAnswer task.now all.0) }
{
    if is_small(task, are_few) {
        return small(alloc, task, hint);
    }
    let kept = again(alloc, task, &hint)?;
    if kept.is_some() {
        let solved = solve_node(alloc, task, kept)?;
        return Ok((solved, hint));
    }
    guessed_first(alloc, task, hint)
}

/// Solves a node's program. A small one takes its path, since that is soon done, and is guessed only where an operation of the path passes
/// 128 bits; another one is guessed first, and takes its path where there is no guess that stands its test. A guess begins with the hint
/// that was lent, and leaves one for the node's next solve; a node without children is answered by the basis of its last solve where that
/// still fits.
pub fn solved_node(alloc: Global, task: &Task, lent: &mut LentHint) -> Result<Solved, Memory>
    requires { IsProblem (problem_of task.now) }
    ensures told { IfOk result (IsToldOf task.now) }
    ensures answer { IfOk result (IsAnswer task.now) }
{
    let (solved, hint) = solved_from(alloc, task, lent.hint.take(), lent.are_few)?;
    lent.hint = hint;
    Ok(solved)
}
