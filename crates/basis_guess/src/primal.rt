//! The primal simplex method from a feasible basis.

use crate::dual::{RETRIES, agree};
use crate::primal_choice::{Leave, entering, leaving};
use crate::primal_steps::{flip, reprice, step};
use crate::solver::{End, most_steps};
use bounded_basis::{Basis, FloatProgram, Vector, constant};
use std::alloc::{AllocError, Global};

/// So many steps without gain until the first column enters.
const STALLED: u32 = 500;

/// What the method holds beside the basis.
#[derive(Drop)]
struct PrimalRun {
    alloc: Global,
    tolerance: f64,
    /// By column its Devex weight.
    weights: Vec<f64>,
    rho: Vector,
    column: Vector,
    retries: u32,
    idle: u32,
}

impl PrimalRun {
    fn new(
        alloc: Global,
        columns: usize,
        rows: usize,
        tolerance: f64,
    ) -> Result<PrimalRun, AllocError> {
        Ok(PrimalRun {
            alloc,
            tolerance,
            weights: constant(alloc, 1.0, columns)?,
            rho: Vector::new(alloc, rows)?,
            column: Vector::new(alloc, rows)?,
            retries: 0,
            idle: 0,
        })
    }

    /// Steps until the method ends, unless it goes round.
    fn turns(&mut self, program: &FloatProgram, basis: &mut Basis) -> Result<End, AllocError> {
        for _turn in 0..most_steps(basis) {
            if let Some(end) = self.turn(program, basis)? {
                return Ok(end);
            }
        }
        Ok(End::Lost)
    }

    /// One step, or the end.
    fn turn(
        &mut self,
        program: &FloatProgram,
        basis: &mut Basis,
    ) -> Result<Option<End>, AllocError> {
        if basis.is_due() && !basis.refresh(self.alloc, program)? {
            return Ok(Some(End::Lost));
        }
        let is_stalled = self.idle > STALLED;
        let Some(enter) = entering(&basis.spots, &self.weights, self.tolerance, is_stalled) else {
            return Ok(Some(End::Optimal));
        };
        if basis.is_spent() {
            return Ok(Some(End::Lost));
        }
        self.enter(program, basis, enter)
    }

    /// A column enters, and goes up or down.
    fn enter(
        &mut self,
        program: &FloatProgram,
        basis: &mut Basis,
        enter: usize,
    ) -> Result<Option<End>, AllocError> {
        let up = if basis.spot(enter).price < 0.0 {
            1.0
        } else {
            -1.0
        };
        basis.column(enter, &mut self.column)?;
        match leaving(basis, enter, up, &self.column) {
            Leave::Never => Ok(Some(End::Unbounded)),
            Leave::Flip(range) => {
                flip(basis, enter, up, range, &self.column);
                self.idle = 0;
                Ok(None)
            }
            Leave::Position(position, length) => {
                basis.row(program, position, &mut self.rho)?;
                if agree(self.column.at(position), basis.alpha_at(enter)) {
                    self.pivot(basis, enter, position, up, length)?;
                    return Ok(None);
                }
                self.retry(program, basis)
            }
        }
    }

    /// Begins again behind fresh factors, if not too often.
    fn retry(
        &mut self,
        program: &FloatProgram,
        basis: &mut Basis,
    ) -> Result<Option<End>, AllocError> {
        self.retries = self.retries.saturating_add(1);
        if self.retries > RETRIES || !basis.refresh(self.alloc, program)? {
            return Ok(Some(End::Lost));
        }
        Ok(None)
    }

    /// The step and the exchange.
    fn pivot(
        &mut self,
        basis: &mut Basis,
        enter: usize,
        position: usize,
        up: f64,
        length: f64,
    ) -> Result<(), AllocError> {
        self.idle = if length > 0.0 {
            0
        } else {
            self.idle.saturating_add(1)
        };
        let goes_down = up * self.column.at(position) > 0.0;
        let out = basis.at(position);
        step(basis, enter, position, up * length, goes_down, &self.column);
        reprice(basis, enter, out, &mut self.weights);
        basis.exchange(position, enter, &self.column)
    }
}

/// Lowers the cost as far as it goes.
pub(crate) fn primal(
    alloc: Global,
    program: &FloatProgram,
    basis: &mut Basis,
    tolerance: f64,
) -> Result<End, AllocError> {
    let mut primal = PrimalRun::new(alloc, basis.spots.len(), program.row_count(), tolerance)?;
    primal.turns(program, basis)
}
