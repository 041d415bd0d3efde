//! Both methods together.

use crate::dense::Dense;
use crate::dual::dual;
use crate::primal::primal;
use crate::{dense_dual, dense_primal};
use bounded_basis::{Basis, FloatProgram, Spot, Standing, TOLERANCE};
use std::alloc::{AllocError, Global};

/// So often both methods run, one behind the other.
const ROUNDS: u32 = 10;

/// A program is small where a dense tableau of it has at most so many numbers, and where so many are looked at at most until all basic
/// columns are so.
const SMALL: usize = 16384;

const FEW: usize = 500_000;

/// So many steps for each line and each place are made beside a dense tableau.
const TURNS: usize = 10;

/// So many steps of a method for each row and each column are made with factors, and so many more: where they don't come to an end by then,
/// rounding errors lead them round.
const STEPS: u64 = 40;

const MORE_STEPS: u64 = 1000;

/// How a solve ends.
#[derive(Clone, Copy, PartialEq)]
pub enum End {
    /// At a point of least cost.
    Optimal,
    /// The basic column (or the activity of a row) can't be brought within its bounds; whether it is below them.
    Infeasible { column: u32, is_below: bool },
    /// The cost falls without end.
    Unbounded,
    /// The work is spent, or numbers went wrong.
    Lost,
}

/// What a solve comes to.
#[derive(Drop)]
pub struct Ended {
    pub end: End,
    /// Of the columns and then of the rows' activities.
    pub standings: Vec<Standing>,
    /// The values of the columns and then the rows' activities.
    pub point: Vec<f64>,
    /// What is left of the work.
    pub work_left: u64,
}

/// Solves a program from a basis. Any list of standings will do: what doesn't fit is mended, and where it ends the
/// activities of rows are basic and the columns aren't. `work` is how many entries may be looked at.
pub fn solve(
    alloc: Global,
    program: &FloatProgram,
    standings: &[Standing],
    work: u64,
) -> Result<Ended, AllocError> {
    if is_small(program) {
        let mut dense = Dense::new(alloc, program, standings, work)?;
        let end = dense_end(&mut dense, price_tolerance(program));
        if end != End::Lost {
            return finished(alloc, &dense.spots, dense.work_left, end);
        }
    }
    with_factors(alloc, program, standings, work)
}

/// As `solve`, with factors, of a program that it solves beside a dense tableau: its end may have an exact answer where that of the
/// tableau has none. None where `solve` takes factors itself.
pub fn solve_with_factors(
    alloc: Global,
    program: &FloatProgram,
    standings: &[Standing],
    work: u64,
) -> Result<Option<Ended>, AllocError> {
    if !is_small(program) {
        return Ok(None);
    }
    Ok(Some(with_factors(alloc, program, standings, work)?))
}

fn with_factors(
    alloc: Global,
    program: &FloatProgram,
    standings: &[Standing],
    work: u64,
) -> Result<Ended, AllocError> {
    let mut basis = Basis::new(alloc, program, standings, work)?;
    let end = solved(alloc, program, &mut basis)?;
    finished(alloc, &basis.spots, basis.work_left, end)
}

/// Whether a program is solved beside a dense tableau.
fn is_small(program: &FloatProgram) -> bool {
    let rows = program.row_count().saturating_add(1);
    let columns = program.column_count().saturating_add(1);
    let numbers = rows.saturating_mul(columns);
    numbers <= SMALL && numbers.saturating_mul(rows.min(columns)) <= FEW
}

/// Both methods beside a dense tableau.
fn dense_end(dense: &mut Dense, tolerance: f64) -> End {
    for _round in 0..ROUNDS {
        if let Some(end) = dense_round(dense, tolerance) {
            return end;
        }
    }
    End::Lost
}

/// As `round`.
fn dense_round(dense: &mut Dense, tolerance: f64) -> Option<End> {
    let lines = dense.line_count().saturating_add(dense.place_count());
    let turns = lines.saturating_mul(TURNS);
    dense.find_values();
    dense.find_prices();
    if dense.leaving().is_some() {
        dense.shift_costs(tolerance);
        let end = dense_dual::dual(dense, turns);
        if end != End::Optimal {
            return Some(end);
        }
        dense.find_prices();
    }
    if dense.is_priced(tolerance) {
        return Some(End::Optimal);
    }
    let end = dense_primal::primal(dense, tolerance, turns);
    if end != End::Optimal {
        return Some(end);
    }
    if dense.leaving().is_none() && dense.is_priced(tolerance) {
        return Some(End::Optimal);
    }
    None
}

fn finished(alloc: Global, spots: &[Spot], work_left: u64, end: End) -> Result<Ended, AllocError> {
    let mut ended = Ended {
        end,
        standings: Vec::with_capacity(alloc, spots.len())?,
        point: Vec::with_capacity(alloc, spots.len())?,
        work_left,
    };
    ended.take(spots)?;
    Ok(ended)
}

impl Ended {
    fn take(&mut self, spots: &[Spot]) -> Result<(), AllocError> {
        for spot in spots {
            self.standings.push(spot.standing)?;
            self.point.push(spot.value)?;
        }
        Ok(())
    }
}

/// So many steps of a method are made at most with factors.
pub(crate) fn most_steps(basis: &Basis) -> u64 {
    let lines = basis.spots.len() as u64;
    let steps = lines.saturating_mul(STEPS).saturating_add(MORE_STEPS);
    steps.min(basis.work_left)
}

/// The tolerance of reduced costs.
fn price_tolerance(program: &FloatProgram) -> f64 {
    let mut most = 1.0;
    for cost in &program.cost {
        if cost.abs() > most {
            most = cost.abs();
        }
    }
    TOLERANCE * most
}

fn solved(alloc: Global, program: &FloatProgram, basis: &mut Basis) -> Result<End, AllocError> {
    let tolerance = price_tolerance(program);
    if !basis.factor(alloc, program)? {
        return Ok(End::Lost);
    }
    for _round in 0..ROUNDS {
        if let Some(end) = round(alloc, program, basis, tolerance)? {
            return Ok(end);
        }
    }
    Ok(End::Lost)
}

/// The dual method where the basis isn't feasible, with shifted costs where it has to, and then the primal one. None
/// where rounding errors have left something to do.
fn round(
    alloc: Global,
    program: &FloatProgram,
    basis: &mut Basis,
    tolerance: f64,
) -> Result<Option<End>, AllocError> {
    basis.find_values(alloc)?;
    basis.find_prices(alloc)?;
    if !basis.is_feasible() {
        let end = dual(alloc, program, basis, tolerance)?;
        if end != End::Optimal {
            return Ok(Some(end));
        }
        basis.restore_costs(program);
        if !renewed(alloc, program, basis)? {
            return Ok(Some(End::Lost));
        }
    }
    // Behind shifted costs the basis is tested again, from fresh factors.
    if !basis.is_feasible() {
        return Ok(None);
    }
    improved(alloc, program, basis, tolerance)
}

/// Fresh factors where there are etas, and the values and reduced costs of them.
fn renewed(alloc: Global, program: &FloatProgram, basis: &mut Basis) -> Result<bool, AllocError> {
    if basis.inverse.has_etas() {
        return basis.refresh(alloc, program);
    }
    basis.find_values(alloc)?;
    basis.find_prices(alloc)?;
    Ok(true)
}

/// The primal method, from a feasible basis.
fn improved(
    alloc: Global,
    program: &FloatProgram,
    basis: &mut Basis,
    tolerance: f64,
) -> Result<Option<End>, AllocError> {
    if basis.is_priced(tolerance) {
        return Ok(Some(End::Optimal));
    }
    let end = primal(alloc, program, basis, tolerance)?;
    if end != End::Optimal {
        return Ok(Some(end));
    }
    if !renewed(alloc, program, basis)? {
        return Ok(Some(End::Lost));
    }
    if basis.is_feasible() && basis.is_priced(tolerance) {
        return Ok(Some(End::Optimal));
    }
    Ok(None)
}
