//! Factors of a basis. Columns that depend on others give way to activities of rows.

use crate::basis::Basis;
use crate::program::{FloatProgram, Standing, narrow};
use crate::spots::set_standing;
use crate::turned::Turned;
use basis_factors::{Entry, Factored, Factors, Matrix};
use std::alloc::{AllocError, Global};

/// So often columns may give way, before it is given up.
const ATTEMPTS: u32 = 20;

/// Adds a column of the program, or the activity of a row.
fn push_column(
    matrix: &mut Matrix<f64>,
    turned: &Turned,
    count: usize,
    column: usize,
) -> Result<(), AllocError> {
    if column < count {
        matrix.push_column(turned.column(column))
    } else {
        let at = narrow(column - count);
        matrix.push_column(&[Entry { at, value: -1.0 }])
    }
}

/// Adds the basic columns.
fn push_all(
    matrix: &mut Matrix<f64>,
    turned: &Turned,
    count: usize,
    head: &[u32],
) -> Result<(), AllocError> {
    for column in head {
        push_column(matrix, turned, count, *column as usize)?;
    }
    Ok(())
}

/// The factors of the basic columns.
fn factored(
    alloc: Global,
    program: &FloatProgram,
    turned: &Turned,
    head: &[u32],
) -> Result<Factored<f64>, AllocError> {
    let mut matrix = Matrix::new(alloc, program.row_count())?;
    push_all(&mut matrix, turned, program.column_count(), head)?;
    Factors::of(alloc, matrix)
}

impl Basis {
    /// Factors the basis anew. False where it can't be done.
    pub fn factor(&mut self, alloc: Global, program: &FloatProgram) -> Result<bool, AllocError> {
        for _attempt in 0..ATTEMPTS {
            if self.factor_once(alloc, program)? {
                return Ok(true);
            }
        }
        Ok(false)
    }

    fn factor_once(&mut self, alloc: Global, program: &FloatProgram) -> Result<bool, AllocError> {
        match factored(alloc, program, &self.turned, &self.head)? {
            Factored::Full(factors) => {
                let entries = factors.entries().saturating_add(self.head.len());
                self.inverse.set(factors);
                self.spend(entries.saturating_mul(4));
                Ok(true)
            }
            Factored::Deficient { rows, columns } => {
                self.give_way(&rows, &columns);
                let entries = self.entries;
                self.spend(entries);
                Ok(false)
            }
        }
    }

    /// The activities of these rows take the places of the basic columns at these positions.
    fn give_way(&mut self, rows: &[u32], positions: &[u32]) {
        for (row, position) in rows.iter().zip(positions.iter()) {
            self.replace(*row as usize, *position as usize);
        }
    }

    fn replace(&mut self, row: usize, position: usize) {
        let out = self.at(position);
        let rest = self.spot(out).rest();
        let column = self.columns.saturating_add(row);
        set_standing(&mut self.spots, out, rest, 0.0);
        set_standing(&mut self.spots, column, Standing::Basic, 0.0);
        if position < self.head.len() {
            self.head[position] = narrow(column);
        }
    }

    /// Factors the basis anew, with all values and reduced costs. False where it can't be done.
    pub fn refresh(&mut self, alloc: Global, program: &FloatProgram) -> Result<bool, AllocError> {
        if !self.factor(alloc, program)? {
            return Ok(false);
        }
        self.find_values(alloc)?;
        self.find_prices(alloc)?;
        Ok(true)
    }
}
