//! The dual simplex method.

use crate::dual_choice::{Offer, PIVOT, entering, leaving};
use crate::dual_steps::{Leaving, exceed, flip, reweigh, step};
use crate::solver::{End, most_steps};
use bounded_basis::{Basis, FloatProgram, Vector, constant, narrow};
use std::alloc::{AllocError, Global};

/// So often the method goes back behind fresh factors.
pub(crate) const RETRIES: u32 = 20;

/// How far the pivots by row and by column may differ.
const AGREEMENT: f64 = 1e-7;

/// Whether the pivot by column is near that by row.
pub(crate) fn agree(by_column: f64, by_row: f64) -> bool {
    (by_column - by_row).abs() <= AGREEMENT * (1.0 + by_column.abs())
}

/// What the method holds beside the basis.
#[derive(Drop)]
struct DualRun {
    alloc: Global,
    /// By position the square of the length of the row of the inverse.
    weights: Vec<f64>,
    /// By position how far the basic column is beyond its bounds.
    excesses: Vec<f64>,
    rho: Vector,
    column: Vector,
    tau: Vector,
    offers: Vec<Offer>,
    flips: Vec<u32>,
    retries: u32,
}

impl DualRun {
    fn new(alloc: Global, rows: usize) -> Result<DualRun, AllocError> {
        Ok(DualRun {
            alloc,
            weights: constant(alloc, 1.0, rows)?,
            excesses: constant(alloc, 0.0, rows)?,
            rho: Vector::new(alloc, rows)?,
            column: Vector::new(alloc, rows)?,
            tau: Vector::new(alloc, rows)?,
            offers: Vec::new(alloc),
            flips: Vec::new(alloc),
            retries: 0,
        })
    }

    fn exceed_all(&mut self, basis: &Basis) {
        for (position, excess) in self.excesses.iter_mut().enumerate() {
            *excess = basis.basic(position).excess();
        }
    }

    fn refresh(&mut self, program: &FloatProgram, basis: &mut Basis) -> Result<bool, AllocError> {
        let is_factored = basis.refresh(self.alloc, program)?;
        self.exceed_all(basis);
        Ok(is_factored)
    }

    /// Begins again behind fresh factors, if not too often.
    fn retry(&mut self, program: &FloatProgram, basis: &mut Basis) -> Result<bool, AllocError> {
        self.retries = self.retries.saturating_add(1);
        if self.retries > RETRIES {
            return Ok(false);
        }
        self.refresh(program, basis)
    }

    /// Steps until the method ends, unless it goes round.
    fn turns(&mut self, program: &FloatProgram, basis: &mut Basis) -> Result<End, AllocError> {
        for _turn in 0..most_steps(basis) {
            if let Some(end) = self.turn(program, basis)? {
                return Ok(end);
            }
        }
        Ok(End::Lost)
    }

    /// One step, or the end.
    fn turn(
        &mut self,
        program: &FloatProgram,
        basis: &mut Basis,
    ) -> Result<Option<End>, AllocError> {
        if basis.is_due() && !self.refresh(program, basis)? {
            return Ok(Some(End::Lost));
        }
        let Some(position) = leaving(&self.excesses, &self.weights) else {
            return Ok(Some(End::Optimal));
        };
        if basis.is_spent() {
            return Ok(Some(End::Lost));
        }
        self.leave(program, basis, position)
    }

    /// The basic column at a position leaves.
    fn leave(
        &mut self,
        program: &FloatProgram,
        basis: &mut Basis,
        position: usize,
    ) -> Result<Option<End>, AllocError> {
        let excess = basis.basic(position).excess();
        let leaving = Leaving {
            position,
            out: basis.at(position),
            is_below: excess < 0.0,
        };
        basis.row(program, position, &mut self.rho)?;
        match entering(basis, excess, &mut self.offers, &mut self.flips)? {
            Some(enter) => self.enter(program, basis, leaving, enter as usize),
            None => self.no_entry(program, basis, leaving),
        }
    }

    /// No column can bring the row to its bound: fresh factors have to show it too.
    fn no_entry(
        &mut self,
        program: &FloatProgram,
        basis: &mut Basis,
        leaving: Leaving,
    ) -> Result<Option<End>, AllocError> {
        if basis.inverse.has_etas() && self.retries < RETRIES {
            self.retries = self.retries.saturating_add(1);
            if self.refresh(program, basis)? {
                return Ok(None);
            }
            return Ok(Some(End::Lost));
        }
        Ok(Some(End::Infeasible {
            column: narrow(leaving.out),
            is_below: leaving.is_below,
        }))
    }

    /// A column enters, if its pivot is large enough and the same by row and by column.
    fn enter(
        &mut self,
        program: &FloatProgram,
        basis: &mut Basis,
        leaving: Leaving,
        enter: usize,
    ) -> Result<Option<End>, AllocError> {
        basis.column(enter, &mut self.column)?;
        let pivot = self.column.at(leaving.position);
        let is_large = pivot.abs() >= PIVOT;
        if is_large && agree(pivot, basis.alpha_at(enter)) {
            self.pivot(basis, leaving, enter)?;
            return Ok(None);
        }
        if (is_large || basis.inverse.has_etas()) && self.retry(program, basis)? {
            return Ok(None);
        }
        Ok(Some(End::Lost))
    }

    /// The flips, the step and the exchange.
    fn pivot(
        &mut self,
        basis: &mut Basis,
        leaving: Leaving,
        enter: usize,
    ) -> Result<(), AllocError> {
        if flip(basis, &self.flips, &mut self.tau)? {
            exceed(&mut self.excesses, basis, &self.tau.places);
        }
        step(basis, leaving, enter, &self.column);
        basis.of_rows(&self.rho, &mut self.tau)?;
        reweigh(&mut self.weights, leaving.position, &self.column, &self.tau);
        basis.exchange(leaving.position, enter, &self.column)?;
        exceed(&mut self.excesses, basis, &self.column.places);
        Ok(())
    }
}

/// Brings all basic columns within their bounds; costs may have been shifted then.
pub(crate) fn dual(
    alloc: Global,
    program: &FloatProgram,
    basis: &mut Basis,
    tolerance: f64,
) -> Result<End, AllocError> {
    basis.shift_costs(tolerance);
    basis.find_values(alloc)?;
    let mut dual = DualRun::new(alloc, program.row_count())?;
    dual.exceed_all(basis);
    dual.turns(program, basis)
}
