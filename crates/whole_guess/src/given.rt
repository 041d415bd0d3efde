//! The claim of a basis that is given.

use crate::claim::{Whole, ends, in_run, prepared};
use basis_file::GivenBasis;
use basis_guess::{End, Ended, Standing};
use basis_values::{ExactProgram, Guessed, guess_from};
use frac128::{Frac, Memory};
use proved_report::Claim;
use scen_defs::{Kind, Node, Program};
use std::alloc::Global;

/// Where a column or row between such ends stands that is to stand at one of them: at the other where it hasn't that one. Solvers differ in
/// which end they name of a row that has one alone.
fn at_an_end(standing: Standing, low: Option<Frac>, high: Option<Frac>) -> Standing {
    match (standing, low.is_some(), high.is_some()) {
        (Standing::Basic, _, _) => Standing::Basic,
        (Standing::High, _, true) => Standing::High,
        (_, true, _) => Standing::Low,
        (_, false, true) => Standing::High,
        (_, false, false) => Standing::Free,
    }
}

/// Puts how the columns of a node stand behind the others.
fn put_columns(
    whole: &Whole<'_>,
    given: &GivenBasis,
    exact: &ExactProgram,
    number: u32,
    node: &Node,
    standings: &mut Vec<Standing>,
) -> Result<(), Memory> {
    for column in whole.layout.columns(node.stage) {
        if let Some(bounds) = exact.columns().get(standings.len()) {
            let standing = given.column(number, *column);
            standings.push(at_an_end(standing, bounds.low, bounds.high))?;
        }
    }
    Ok(())
}

/// Puts how the rows of a node stand behind the others.
fn put_rows(
    given: &GivenBasis,
    number: u32,
    node: &Node,
    standings: &mut Vec<Standing>,
) -> Result<(), Memory> {
    for row in &node.rows {
        let standing = given.row(number, row.row);
        standings.push(at_an_end(standing, row.low, row.high))?;
    }
    Ok(())
}

/// How all columns and then all rows stand.
fn standings(
    alloc: Global,
    whole: &Whole<'_>,
    given: &GivenBasis,
    exact: &ExactProgram,
) -> Result<Vec<Standing>, Memory> {
    let mut standings = Vec::new(alloc);
    let mut number = 0u32;
    for node in &whole.program.nodes {
        if let Some(node) = node {
            put_columns(whole, given, exact, number, node, &mut standings)?;
        }
        number = number.saturating_add(1);
    }
    number = 0;
    for node in &whole.program.nodes {
        if let Some(node) = node {
            put_rows(given, number, node, &mut standings)?;
        }
        number = number.saturating_add(1);
    }
    Ok(standings)
}

/// What the exact values of a basis show, where they are those of an end: it isn't moved, and no work is left to mend it.
fn claim_at(alloc: Global, whole: &Whole<'_>, given: &GivenBasis) -> Result<Option<Claim>, Memory> {
    let Some(exact) = in_run(alloc, whole, Kind::Cost)? else {
        return Ok(None);
    };
    let ended = Ended {
        end: End::Optimal,
        standings: standings(alloc, whole, given, &exact)?,
        point: Vec::new(alloc),
        work_left: 0,
    };
    let (mut left, mut work) = (Vec::new(alloc), 0);
    match guess_from(alloc, &exact, ended, &mut left, &mut work)? {
        Guessed::Optimal(solution) => Ok(Some(ends(alloc, whole, &solution)?)),
        Guessed::Infeasible(_) | Guessed::Unbounded | Guessed::Nothing => Ok(None),
    }
}

/// What may be claimed of a program by a basis of all its nodes together: its policy, and its multipliers. None where they aren't optimal,
/// where a number is too wide, or where the program is too large to be tried.
pub fn given_claim(
    alloc: Global,
    program: &Program,
    given: &GivenBasis,
) -> Result<Option<Claim>, Memory> {
    match prepared(alloc, program)? {
        Some(whole) => claim_at(alloc, &whole, given),
        None => Ok(None),
    }
}
