//! From a basis that floats find to exact numbers.

use crate::exact_program::ExactProgram;
use crate::kernel::Kernel;
use crate::ray::ray_of;
use crate::refuted::is_refuted;
use crate::solution::{Solution, solution_of};
use crate::zoom::zoomed;
use basis_guess::{End, Ended, FloatProgram, Standing, solve, solve_with_factors};
use frac128::{Frac, Memory};
use scaled_guess::{are_unlike, solve_scaled};
use std::alloc::Global;
use std::mem::replace;

/// What a program comes to, by numbers that are exact; whoever relies on them tests them.
#[derive(Drop)]
pub enum Guessed {
    /// An optimal solution.
    Optimal(Solution),
    /// Multipliers of the rows by which no point meets them: what the rows give together is more than columns within
    /// their bounds can.
    Infeasible(Vec<Frac>),
    /// No limit to the cost was found.
    Unbounded,
    /// No answer, as where a number is too wide, or where the work is spent.
    Nothing,
}

/// So many times a solution is repaired.
const REPAIRS: usize = 10;

/// What a basis comes to.
#[derive(Drop)]
enum Step {
    Done(Guessed),
    /// A solution that fails the exact test.
    Refuted(Solution),
}

/// Takes what is looked at from the work that is left.
fn spend(work: &mut u64, size: usize) {
    *work = work.saturating_sub(size as u64);
}

/// The solution of the basis, tested.
fn tested(
    alloc: Global,
    program: &ExactProgram,
    standings: &[Standing],
    kernel: &Kernel,
) -> Result<Step, Memory> {
    match solution_of(alloc, program, standings, kernel)? {
        None => Ok(Step::Done(Guessed::Nothing)),
        Some(solution) => {
            if is_refuted(alloc, program, &solution)? {
                Ok(Step::Refuted(solution))
            } else {
                Ok(Step::Done(Guessed::Optimal(solution)))
            }
        }
    }
}

/// What a basis with a kernel comes to.
fn answered(
    alloc: Global,
    program: &ExactProgram,
    standings: &[Standing],
    kernel: &Kernel,
    end: &End,
) -> Result<Step, Memory> {
    if let End::Infeasible { column, is_below } = end {
        if let Some(ray) = ray_of(alloc, program, kernel, *column, *is_below)? {
            return Ok(Step::Done(Guessed::Infeasible(ray)));
        }
    }
    // Where a bound is missed by a rounding error alone the point itself may do.
    tested(alloc, program, standings, kernel)
}

/// What a basis comes to.
fn at_basis(
    alloc: Global,
    program: &ExactProgram,
    standings: &[Standing],
    end: &End,
    work: &mut u64,
) -> Result<Step, Memory> {
    match Kernel::of(alloc, program, standings)? {
        None => Ok(Step::Done(Guessed::Nothing)),
        Some(kernel) => {
            spend(work, kernel.effort().saturating_mul(16));
            answered(alloc, program, standings, &kernel, end)
        }
    }
}

/// Takes what a solve in floats came to.
fn take(ended: Ended, standings: &mut Vec<Standing>, work: &mut u64) -> End {
    let Ended {
        end,
        standings: found,
        point: _,
        work_left,
    } = ended;
    *standings = found;
    *work = work_left;
    end
}

/// How a program is solved in floats.
#[derive(Clone, Copy)]
enum Manner {
    /// As it is.
    Plain,
    /// Its columns too multiplied by powers of 2.
    Scaled,
}

fn solved(
    alloc: Global,
    program: &FloatProgram,
    standings: &[Standing],
    work: u64,
    manner: Manner,
) -> Result<Ended, Memory> {
    match manner {
        Manner::Plain => Ok(solve(alloc, program, standings, work)?),
        Manner::Scaled => Ok(solve_scaled(alloc, program, standings, work)?),
    }
}

/// Solves the program around a refuted solution.
fn repaired(
    alloc: Global,
    program: &ExactProgram,
    solution: &Solution,
    standings: &mut Vec<Standing>,
    work: &mut u64,
    manner: Manner,
) -> Result<End, Memory> {
    let near = zoomed(alloc, program, solution)?;
    let ended = solved(alloc, &near, standings, *work, manner)?;
    Ok(take(ended, standings, work))
}

/// From the end of a solve in floats to exact numbers. Where they fail the exact test the program around them is
/// enlarged and solved again, a few times at most.
fn exact_end(
    alloc: Global,
    program: &ExactProgram,
    ended: Ended,
    standings: &mut Vec<Standing>,
    work: &mut u64,
    manner: Manner,
) -> Result<Guessed, Memory> {
    let mut end = take(ended, standings, work);
    if let End::Unbounded = &end {
        return Ok(Guessed::Unbounded);
    }
    for _repair in 0..REPAIRS {
        if let End::Lost = &end {
            return Ok(Guessed::Nothing);
        }
        match at_basis(alloc, program, standings, &end, work)? {
            Step::Done(guessed) => return Ok(guessed),
            Step::Refuted(solution) => {
                if *work == 0 {
                    return Ok(Guessed::Nothing);
                }
                end = repaired(alloc, program, &solution, standings, work, manner)?;
            }
        }
    }
    Ok(Guessed::Nothing)
}

/// The same where the end has no exact answer: with factors, where it was one beside a dense tableau.
fn exact_end_or_factors(
    alloc: Global,
    program: &ExactProgram,
    ended: Ended,
    start: &[Standing],
    standings: &mut Vec<Standing>,
    work: &mut u64,
) -> Result<Guessed, Memory> {
    let guessed = exact_end(alloc, program, ended, standings, work, Manner::Plain)?;
    if let Guessed::Nothing = &guessed {
        if let Some(again) = solve_with_factors(alloc, program.floats(), start, *work)? {
            return exact_end(alloc, program, again, standings, work, Manner::Plain);
        }
    }
    Ok(guessed)
}

/// From the end of a solve in floats, which began with `standings`, to exact numbers, repaired where they fail the exact test. Where an
/// end beside a dense tableau gives none, the program is solved with factors from the same standings; where that gives none either and
/// entries are of unlike sizes, so is the program with its columns multiplied too. `standings` become those of the last solve, and `work`
/// what is left.
pub fn guess_from(
    alloc: Global,
    program: &ExactProgram,
    ended: Ended,
    standings: &mut Vec<Standing>,
    work: &mut u64,
) -> Result<Guessed, Memory> {
    let start = replace(standings, Vec::new(alloc));
    let guessed = exact_end_or_factors(alloc, program, ended, &start, standings, work)?;
    if let Guessed::Nothing = &guessed {
        if are_unlike(program.floats()) {
            let again = solve_scaled(alloc, program.floats(), &start, *work)?;
            return exact_end(alloc, program, again, standings, work, Manner::Scaled);
        }
    }
    Ok(guessed)
}

/// Solves the program in floats from these standings, and finds the exact numbers of the end.
pub fn guess(
    alloc: Global,
    program: &ExactProgram,
    standings: &mut Vec<Standing>,
    work: &mut u64,
) -> Result<Guessed, Memory> {
    let ended = solve(alloc, program.floats(), standings, *work)?;
    guess_from(alloc, program, ended, standings, work)
}
