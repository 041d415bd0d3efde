//! The claim.

use crate::digest::{digest_of, size_of};
use crate::flat::{flat_program, is_tried};
use crate::hint::WholeHint;
use crate::layout::Layout;
use crate::lists::{point_list, row_list};
use basis_guess::Standing;
use basis_values::{ExactProgram, Guessed, Solution, guess};
use frac128::{ArithmeticFault, Memory};
use near_ends::{near_multipliers, near_point};
use proved_report::Claim;
use scen_defs::{Kind, Program, Values};
use scen_tree::Tree;
use std::alloc::Global;

/// So much work a guess may take at most: an entry that is looked at is a unit, and a second has some hundred million.
const WORK: u64 = 1_000_000_000;

/// The same of a policy and of multipliers near the optimal ones.
const NEAR_WORK: u64 = 600_000_000;

/// So many times a guess may look at each column, row and entry: where that doesn't do, rounding errors lead it round.
const LOOKS: u64 = 30_000;

/// No program of more nodes is tried; each has a row or a column, or is empty.
const MOST_NODES: usize = 1_000_000;

/// What is known of a program while it is guessed.
#[derive(Drop)]
pub(crate) struct Whole<'a> {
    pub(crate) program: &'a Program,
    pub(crate) tree: Tree,
    pub(crate) layout: Layout,
}

/// The program with its tree and its layout; none where it is too large, or has no tree.
pub(crate) fn prepared<'a>(
    alloc: Global,
    program: &'a Program,
) -> Result<Option<Whole<'a>>, Memory> {
    if program.nodes.len() > MOST_NODES {
        return Ok(None);
    }
    let layout = Layout::of(alloc, program)?;
    if !is_tried(program, &layout) {
        return Ok(None);
    }
    match Tree::of(alloc, program) {
        Ok(tree) => Ok(Some(Whole {
            program,
            tree,
            layout,
        })),
        Err(ArithmeticFault::Passed(_)) => Ok(None),
        Err(ArithmeticFault::Memory) => Err(Memory),
    }
}

/// The work that a guess of a program may take, where so much is the most.
fn work_of(exact: &ExactProgram, most: u64) -> u64 {
    size_of(exact).saturating_mul(LOOKS).min(most)
}

/// The program in a run of a kind.
pub(crate) fn in_run(
    alloc: Global,
    whole: &Whole<'_>,
    kind: Kind,
) -> Result<Option<ExactProgram>, Memory> {
    flat_program(alloc, whole.program, &whole.tree, &whole.layout, kind)
}

/// A policy, and multipliers that show that none is cheaper.
pub(crate) fn ends(alloc: Global, whole: &Whole<'_>, solution: &Solution) -> Result<Claim, Memory> {
    let policy = point_list(alloc, whole.program, &whole.layout, &solution.point)?;
    let dual = row_list(alloc, whole.program, &solution.multipliers)?;
    Ok(Claim::Ends {
        policy: Some(policy),
        dual: Some(dual),
    })
}

/// The point of an optimal end of the program in a run of a kind.
fn point_in_run(
    alloc: Global,
    whole: &Whole<'_>,
    kind: Kind,
    standings: &mut Vec<Standing>,
    work: &mut u64,
) -> Result<Option<Values>, Memory> {
    let Some(exact) = in_run(alloc, whole, kind)? else {
        return Ok(None);
    };
    match guess(alloc, &exact, standings, work)? {
        Guessed::Optimal(solution) => Ok(Some(point_list(
            alloc,
            whole.program,
            &whole.layout,
            &solution.point,
        )?)),
        Guessed::Infeasible(_) | Guessed::Unbounded | Guessed::Nothing => Ok(None),
    }
}

/// A policy, and a direction in which the cost falls.
fn endless(
    alloc: Global,
    whole: &Whole<'_>,
    standings: &mut Vec<Standing>,
    work: &mut u64,
) -> Result<Option<Claim>, Memory> {
    let Some(policy) = point_in_run(alloc, whole, Kind::Feasible, standings, work)? else {
        return Ok(None);
    };
    let Some(direction) = point_in_run(alloc, whole, Kind::Recession, standings, work)? else {
        return Ok(None);
    };
    Ok(Some(Claim::Endless { policy, direction }))
}

/// What is claimed of what was guessed.
fn claimed(
    alloc: Global,
    whole: &Whole<'_>,
    guessed: Guessed,
    standings: &mut Vec<Standing>,
    work: &mut u64,
) -> Result<Option<Claim>, Memory> {
    match guessed {
        Guessed::Optimal(solution) => Ok(Some(ends(alloc, whole, &solution)?)),
        Guessed::Infeasible(ray) => Ok(Some(Claim::Nowhere {
            ray: row_list(alloc, whole.program, &ray)?,
        })),
        Guessed::Unbounded => endless(alloc, whole, standings, work),
        Guessed::Nothing => Ok(None),
    }
}

/// A policy and multipliers near the optimal ones, each where it is found.
fn near(alloc: Global, whole: &Whole<'_>) -> Result<Option<Claim>, Memory> {
    let Some(exact) = in_run(alloc, whole, Kind::Cost)? else {
        return Ok(None);
    };
    let mut work = work_of(&exact, NEAR_WORK);
    let mut standings: Vec<Standing> = Vec::new(alloc);
    let policy = match near_point(alloc, &exact, &mut standings, &mut work)? {
        Some(point) => Some(point_list(alloc, whole.program, &whole.layout, &point)?),
        None => None,
    };
    let dual = match near_multipliers(alloc, &exact, &standings, &mut work)? {
        Some(multipliers) => Some(row_list(alloc, whole.program, &multipliers)?),
        None => None,
    };
    Ok(Some(Claim::Ends { policy, dual }))
}

/// What may be claimed of the program with its tree.
fn guessed_whole(
    alloc: Global,
    whole: &Whole<'_>,
    hint: &mut WholeHint,
) -> Result<Option<Claim>, Memory> {
    let Some(exact) = in_run(alloc, whole, Kind::Cost)? else {
        return Ok(None);
    };
    let digest = digest_of(&exact);
    if hint.has_failed(digest) {
        return Ok(None);
    }
    let mut standings = hint.standings(alloc, whole.program, &whole.layout, exact.floats())?;
    let mut work = work_of(&exact, WORK);
    let guessed = guess(alloc, &exact, &mut standings, &mut work)?;
    let columns = exact.column_count();
    hint.keep(alloc, whole.program, &whole.layout, &standings, columns)?;
    let claim = claimed(alloc, whole, guessed, &mut standings, &mut work)?;
    if claim.is_none() {
        hint.note_failure(digest)?;
    }
    Ok(claim)
}

/// What may be claimed of a program, by a solve of all its nodes together: a policy with multipliers, multipliers of a ray, or a policy
/// with a direction. None where nothing is found, within a budget of work that takes some ten seconds at most, where the program is
/// too large to be tried, or where the hint knows that nothing was found of one with the same numbers.
pub fn guessed_claim(
    alloc: Global,
    program: &Program,
    hint: &mut WholeHint,
) -> Result<Option<Claim>, Memory> {
    match prepared(alloc, program)? {
        Some(whole) => guessed_whole(alloc, &whole, hint),
        None => Ok(None),
    }
}

/// A claim of a policy and of multipliers near the optimal ones, each where it is found: for where the optimal ones have more than 128
/// bits. None where the program is too large to be tried.
pub fn near_claim(alloc: Global, program: &Program) -> Result<Option<Claim>, Memory> {
    match prepared(alloc, program)? {
        Some(whole) => near(alloc, &whole),
        None => Ok(None),
    }
}
