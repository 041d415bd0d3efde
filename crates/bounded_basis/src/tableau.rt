//! Columns and rows of the tableau, that is of the inverse of the basis times the program.

use crate::basis::Basis;
use crate::program::{FloatProgram, narrow};
use crate::vectors::{Vector, add_entries, number, set_number};
use basis_factors::Entry;
use std::alloc::AllocError;

/// Multipliers that count as 0.
const DROPPED: f64 = 1e-14;

/// Adds multiples of entries to a right side, and lists their rows.
fn add_column(
    right: &mut [f64],
    given: &mut Vec<u32>,
    factor: f64,
    entries: &[Entry<f64>],
) -> Result<(), AllocError> {
    for entry in entries {
        let row = entry.at as usize;
        if row < right.len() {
            right[row] += factor * entry.value;
            given.push(entry.at)?;
        }
    }
    Ok(())
}

impl Basis {
    /// Adds a multiple of a column to the right side.
    pub fn scatter(&mut self, column: usize, factor: f64) -> Result<(), AllocError> {
        if column < self.columns {
            add_column(
                &mut self.right,
                &mut self.given,
                factor,
                self.turned.column(column),
            )
        } else {
            let at = narrow(column - self.columns);
            let own = [Entry { at, value: -1.0 }];
            add_column(&mut self.right, &mut self.given, factor, &own)
        }
    }

    /// From the right side to a solution by position.
    pub fn forward(&mut self, solution: &mut Vector) -> Result<(), AllocError> {
        self.inverse
            .forward(&mut self.right, &self.given, solution)?;
        self.given.clear();
        let least = self.head.len() / 16;
        let work = solution.places.len().saturating_add(self.inverse.etas());
        self.spend(work.saturating_add(least));
        Ok(())
    }

    /// A column of the tableau, by position.
    pub fn column(&mut self, column: usize, solution: &mut Vector) -> Result<(), AllocError> {
        self.scatter(column, 1.0)?;
        self.forward(solution)
    }

    /// From a right side that is given by its rows.
    pub fn of_rows(&mut self, rows: &Vector, solution: &mut Vector) -> Result<(), AllocError> {
        for row in &rows.places {
            let at = *row as usize;
            set_number(&mut self.right, at, number(&rows.values, at));
        }
        self.given.extend_from_slice(&rows.places)?;
        self.forward(solution)
    }

    /// The row of the inverse at a position, and with it the row of the tableau.
    pub fn row(
        &mut self,
        program: &FloatProgram,
        position: usize,
        rho: &mut Vector,
    ) -> Result<(), AllocError> {
        set_number(&mut self.costs, position, 1.0);
        self.wanted.clear();
        self.wanted.push(narrow(position))?;
        self.inverse
            .backward(&mut self.costs, &mut self.wanted, rho)?;
        self.clear_row();
        self.add_rows(program, rho)?;
        let entries = self.inverse.eta_entries().saturating_add(rho.places.len());
        let touched = self.touched.len().saturating_mul(2);
        let least = self.head.len() / 16;
        self.spend(entries.saturating_add(touched).saturating_add(least));
        Ok(())
    }

    fn clear_row(&mut self) {
        for column in &self.touched {
            set_number(&mut self.alpha, *column as usize, 0.0);
        }
        self.touched.clear();
    }

    fn add_rows(&mut self, program: &FloatProgram, rho: &Vector) -> Result<(), AllocError> {
        for row in &rho.places {
            let factor = rho.at(*row as usize);
            if factor.abs() >= DROPPED {
                self.add_row(program, *row, factor)?;
            }
        }
        Ok(())
    }

    fn add_row(&mut self, program: &FloatProgram, row: u32, factor: f64) -> Result<(), AllocError> {
        add_entries(&mut self.alpha, &mut self.touched, factor, program.row(row))?;
        let column = self.columns.saturating_add(row as usize);
        set_number(&mut self.alpha, column, -factor);
        self.touched.push(narrow(column))?;
        Ok(())
    }

    /// The number of a column in the row of the tableau.
    pub fn alpha_at(&self, column: usize) -> f64 {
        number(&self.alpha, column)
    }
}
