//! A ray with fewer lines: one of rows of which none can be left out.
//!
//! Rows are left out one after the other, and stay away where the others have no point either (the deletion filter: J. W. Chinneck and
//! E. W. Dravnieks, Locating minimal infeasible constraint sets in linear programs, 1991).

use crate::layout::Layout;
use crate::lists::{number_at, put};
use crate::part::part_program;
use basis_guess::{End, solve};
use basis_values::{ExactProgram, Guessed, guess_from};
use frac128::{Frac, Memory};
use scen_defs::{Program, Values};
use std::alloc::Global;

/// So much work all guesses together may take, the unit being an entry that is looked at.
const WORK: u64 = 100_000_000;

/// A row or a column that is put into a program counts as so much work.
const PUT: u64 = 50;

/// No program of more nodes is tried, and no ray of more lines.
const MOST_NODES: usize = 1_000_000;

const MOST_LINES: usize = 10_000;

/// Takes the making of a program from the work that is left.
fn spend(work: &mut u64, exact: &ExactProgram) {
    let lines = exact.column_count().saturating_add(exact.row_count()) as u64;
    *work = work.saturating_sub(lines.saturating_mul(PUT));
}

/// The lines of rows with these multipliers.
fn chosen(alloc: Global, lines: &Values, multipliers: &[Frac]) -> Result<Values, Memory> {
    let mut ray = Values::empty(alloc);
    for (place, line) in lines.items().iter().enumerate() {
        put(
            &mut ray,
            line.node,
            line.index,
            number_at(multipliers, place),
        )?;
    }
    Ok(ray)
}

/// The lines but for one.
fn without(alloc: Global, lines: &Values, left_out: usize) -> Result<Values, Memory> {
    let mut others = Values::empty(alloc);
    for (place, line) in lines.items().iter().enumerate() {
        if place != left_out {
            put(&mut others, line.node, line.index, line.value)?;
        }
    }
    Ok(others)
}

/// A ray of some of these rows, where they have no point together.
fn guessed_ray(
    alloc: Global,
    program: &Program,
    layout: &mut Layout,
    lines: &Values,
    work: &mut u64,
) -> Result<Option<Values>, Memory> {
    let Some(exact) = part_program(alloc, program, layout, lines)? else {
        return Ok(None);
    };
    spend(work, &exact);
    let mut standings = Vec::new(alloc);
    let ended = solve(alloc, exact.floats(), &standings, *work)?;
    if !matches!(&ended.end, End::Infeasible { .. }) {
        *work = ended.work_left;
        return Ok(None);
    }
    match guess_from(alloc, &exact, ended, &mut standings, work)? {
        Guessed::Infeasible(multipliers) => Ok(Some(chosen(alloc, lines, &multipliers)?)),
        Guessed::Optimal(_) | Guessed::Unbounded | Guessed::Nothing => Ok(None),
    }
}

/// The ray without the rows that can be left out, as far as the work reaches.
fn irreducible(
    alloc: Global,
    program: &Program,
    layout: &mut Layout,
    ray: Values,
    work: &mut u64,
) -> Result<Values, Memory> {
    let mut kept = ray;
    // Those before this place can't be left out.
    let mut place = 0usize;
    for _row in 0..kept.items().len() {
        if place >= kept.items().len() || *work == 0 {
            break;
        }
        let others = without(alloc, &kept, place)?;
        match guessed_ray(alloc, program, layout, &others, work)? {
            Some(fewer) => kept = fewer,
            None => place = place.saturating_add(1),
        }
    }
    Ok(kept)
}

/// A ray with fewer lines than this one, which has some of its rows. It is a guess: nothing is said of what it shows. None where none is
/// found, within a budget of work that takes a second at most, or where there is too much to be tried.
pub fn shorter_ray(
    alloc: Global,
    program: &Program,
    ray: &Values,
) -> Result<Option<Values>, Memory> {
    let lines = ray.items().len();
    if program.nodes.len() > MOST_NODES || lines > MOST_LINES {
        return Ok(None);
    }
    let mut layout = Layout::of(alloc, program)?;
    let mut work = WORK;
    let first = match guessed_ray(alloc, program, &mut layout, ray, &mut work)? {
        Some(first) => first,
        None => ray.copy(alloc)?,
    };
    let kept = irreducible(alloc, program, &mut layout, first, &mut work)?;
    if kept.items().len() < lines {
        Ok(Some(kept))
    } else {
        Ok(None)
    }
}
