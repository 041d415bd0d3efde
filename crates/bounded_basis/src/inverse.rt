//! The inverse of a basis: the factors of an earlier one, and an eta file, the columns that have changed it since then
//! (the product form of the inverse: W. Orchard-Hays, Advanced Linear-Programming Computing Techniques, 1968).

use crate::vectors::{Vector, add_entries, number, set_number};
use basis_factors::{Entry, Factors};
use std::alloc::{AllocError, Global};

/// So many etas, and one more for so many rows, until the basis is factored anew.
const MOST_ETAS: usize = 100;

const ROWS_AN_ETA: usize = 20;

/// So many entries of etas are always allowed.
const MOST_ENTRIES: usize = 1000;

/// Entries of an eta that are left out.
const DROPPED: f64 = 1e-14;

/// A column that took the place of another: its position, 1 over its number there, and where its entries stand.
#[derive(Clone, Copy)]
struct Eta {
    position: u32,
    inverse: f64,
    start: usize,
    end: usize,
}

/// Factors and etas.
#[derive(Drop)]
pub struct Inverse {
    factors: Option<Factors<f64>>,
    etas: Vec<Eta>,
    entries: Vec<Entry<f64>>,
}

/// The entries of an eta.
#[inline(always)]
fn entries_of(eta: Eta, entries: &[Entry<f64>]) -> &[Entry<f64>] {
    if eta.start <= eta.end && eta.end <= entries.len() {
        &entries[eta.start..eta.end]
    } else {
        &[]
    }
}

/// A number less the products of entries with others.
fn less_products(start: f64, entries: &[Entry<f64>], values: &[f64]) -> f64 {
    let mut sum = start;
    for entry in entries {
        sum -= entry.value * number(values, entry.at as usize);
    }
    sum
}

impl Inverse {
    /// No factors.
    pub fn new(alloc: Global) -> Inverse {
        Inverse {
            factors: None,
            etas: Vec::new(alloc),
            entries: Vec::new(alloc),
        }
    }

    /// New factors.
    pub fn set(&mut self, factors: Factors<f64>) {
        self.factors = Some(factors);
        self.etas.clear();
        self.entries.clear();
    }

    /// Whether the basis has changed since it was factored.
    pub fn has_etas(&self) -> bool {
        !self.etas.is_empty()
    }

    /// How many etas there are.
    pub fn etas(&self) -> usize {
        self.etas.len()
    }

    /// How many entries the etas have.
    pub fn eta_entries(&self) -> usize {
        self.entries.len()
    }

    fn factor_entries(&self) -> usize {
        match &self.factors {
            Some(factors) => factors.entries(),
            None => 0,
        }
    }

    /// Whether a basis of so many rows had better be factored anew.
    pub fn is_due(&self, rows: usize) -> bool {
        let most = self.factor_entries().saturating_mul(2).saturating_add(rows);
        self.etas.len() >= MOST_ETAS.saturating_add(rows / ROWS_AN_ETA)
            || self.entries.len() > most.saturating_add(MOST_ENTRIES)
    }

    /// A column, which is given by position, takes the place of the one at a position.
    pub fn push(&mut self, position: u32, column: &Vector) -> Result<(), AllocError> {
        let start = self.entries.len();
        for place in &column.places {
            let value = column.at(*place as usize);
            if *place != position && value.abs() > DROPPED {
                self.entries.push(Entry { at: *place, value })?;
            }
        }
        self.etas.push(Eta {
            position,
            inverse: 1.0 / column.at(position as usize),
            start,
            end: self.entries.len(),
        })?;
        Ok(())
    }

    /// From a right side by row, which is 0 behind it, to a solution by position. `given` are the rows of the right
    /// side where they are few; it may be empty.
    pub fn forward(
        &self,
        right: &mut [f64],
        given: &[u32],
        solution: &mut Vector,
    ) -> Result<(), AllocError> {
        solution.clear();
        if let Some(factors) = &self.factors {
            factors.forward(right, given, &mut solution.values, &mut solution.places)?;
        }
        for eta in &self.etas {
            self.forward_eta(*eta, solution)?;
        }
        Ok(())
    }

    #[inline(always)]
    fn forward_eta(&self, eta: Eta, solution: &mut Vector) -> Result<(), AllocError> {
        let at = eta.position as usize;
        let before = solution.at(at);
        if before != 0.0 {
            let value = before * eta.inverse;
            let list = entries_of(eta, &self.entries);
            add_entries(&mut solution.values, &mut solution.places, -value, list)?;
            set_number(&mut solution.values, at, value);
        }
        Ok(())
    }

    /// From costs by position, which are 0 behind it, to multipliers by row. `given` are the positions of the costs
    /// where they are few; it may be empty.
    pub fn backward(
        &self,
        costs: &mut [f64],
        given: &mut Vec<u32>,
        solution: &mut Vector,
    ) -> Result<(), AllocError> {
        solution.clear();
        for eta in self.etas.iter().rev() {
            self.backward_eta(*eta, costs, given)?;
        }
        if let Some(factors) = &self.factors {
            factors.backward(costs, given, &mut solution.values, &mut solution.places)?;
        }
        Ok(())
    }

    #[inline(always)]
    fn backward_eta(
        &self,
        eta: Eta,
        costs: &mut [f64],
        given: &mut Vec<u32>,
    ) -> Result<(), AllocError> {
        let at = eta.position as usize;
        let before = number(costs, at);
        let value = less_products(before, entries_of(eta, &self.entries), costs);
        if before == 0.0 && value != 0.0 && !given.is_empty() {
            given.push(eta.position)?;
        }
        set_number(costs, at, value * eta.inverse);
        Ok(())
    }
}
