//! A square matrix that is given column by column.

use crate::entries::{Entry, narrow};
use crate::numbers::Number;
use std::alloc::{AllocError, Global};

/// A square matrix: the entries of each row, and the rows of each column.
#[derive(Drop)]
pub struct Matrix<T> {
    pub(crate) rows: Vec<Vec<Entry<T>>>,
    pub(crate) columns: Vec<Vec<u32>>,
}

impl<T: Number> Matrix<T> {
    /// So many rows, and no column yet.
    pub fn new(alloc: Global, size: usize) -> Result<Matrix<T>, AllocError> {
        let mut matrix = Matrix {
            rows: Vec::new(alloc),
            columns: Vec::new(alloc),
        };
        for _row in 0..size {
            matrix.rows.push(Vec::new(alloc))?;
        }
        Ok(matrix)
    }

    /// How many rows it has.
    pub fn size(&self) -> usize {
        self.rows.len()
    }

    /// How many columns it has so far.
    pub fn width(&self) -> usize {
        self.columns.len()
    }

    /// The next column: `entries` by row, each row once. What is 0 or stands in no row is left out.
    pub fn push_column(&mut self, entries: &[Entry<T>]) -> Result<(), AllocError> {
        let alloc = *self.columns.allocator();
        let column = narrow(self.columns.len());
        self.columns.push(Vec::new(alloc))?;
        for entry in entries {
            self.add(entry.at, column, entry.value)?;
        }
        Ok(())
    }

    fn add(&mut self, row: u32, column: u32, value: T) -> Result<(), AllocError> {
        let (at, place) = (row as usize, column as usize);
        if !value.is_zero() && at < self.rows.len() && place < self.columns.len() {
            self.rows[at].push(Entry { at: column, value })?;
            self.columns[place].push(row)?;
        }
        Ok(())
    }
}
