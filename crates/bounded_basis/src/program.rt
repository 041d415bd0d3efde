//! A program over bounded columns.

use basis_factors::Entry;
use std::alloc::{AllocError, Global};

/// How a column stands beside a basis.
#[derive(Clone, Copy, PartialEq)]
pub enum Standing {
    /// It is basic.
    Basic,
    /// At its low bound.
    Low,
    /// At its high bound.
    High,
    /// At 0, without bounds.
    Free,
}

/// The least cost over columns between bounds, which may be infinite. The activity of row i is the column n + i, with
/// n for the number of columns, and has the entry -1 in that row: so all right sides are 0, and each limit of a row is
/// a bound. All columns are pushed before the first row.
#[derive(Drop)]
pub struct FloatProgram {
    /// How many columns there are.
    columns: usize,
    /// By row its entries by column.
    pub rows: Vec<Vec<Entry<f64>>>,
    /// The low bounds of the columns and then of the rows' activities.
    pub low: Vec<f64>,
    /// The high bounds of the same.
    pub high: Vec<f64>,
    /// By column.
    pub cost: Vec<f64>,
}

/// A number narrowed to 32 bits; the largest one where it is too large.
#[inline(always)]
pub fn narrow(number: usize) -> u32 {
    if number < u32::MAX as usize {
        number as u32
    } else {
        u32::MAX
    }
}

/// Where a column between such bounds stands that isn't basic.
pub fn rest_between(low: f64, high: f64) -> Standing {
    if low.is_finite() {
        Standing::Low
    } else if high.is_finite() {
        Standing::High
    } else {
        Standing::Free
    }
}

impl FloatProgram {
    /// No column and no row.
    pub fn new(alloc: Global) -> FloatProgram {
        FloatProgram {
            columns: 0,
            rows: Vec::new(alloc),
            low: Vec::new(alloc),
            high: Vec::new(alloc),
            cost: Vec::new(alloc),
        }
    }

    /// No column and no row, with memory for so many.
    pub fn sized(alloc: Global, columns: usize, rows: usize) -> Result<FloatProgram, AllocError> {
        let all = columns.saturating_add(rows);
        Ok(FloatProgram {
            columns: 0,
            rows: Vec::with_capacity(alloc, rows)?,
            low: Vec::with_capacity(alloc, all)?,
            high: Vec::with_capacity(alloc, all)?,
            cost: Vec::with_capacity(alloc, columns)?,
        })
    }

    /// One more column; only as long as there is no row.
    pub fn push_column(&mut self, low: f64, high: f64, cost: f64) -> Result<(), AllocError> {
        self.columns = self.columns.saturating_add(1);
        self.low.push(low)?;
        self.high.push(high)?;
        self.cost.push(cost)?;
        Ok(())
    }

    /// One more row: its entries by column, each column once, and the bounds of its activity.
    pub fn push_row(
        &mut self,
        entries: Vec<Entry<f64>>,
        low: f64,
        high: f64,
    ) -> Result<(), AllocError> {
        self.rows.push(entries)?;
        self.low.push(low)?;
        self.high.push(high)?;
        Ok(())
    }

    /// How many columns there are, without the rows' activities.
    pub fn column_count(&self) -> usize {
        self.columns
    }

    /// How many rows there are.
    pub fn row_count(&self) -> usize {
        self.rows.len()
    }

    /// The low bound of a column or of a row's activity, below all numbers where there is none.
    pub fn low_at(&self, column: usize) -> f64 {
        if column < self.low.len() {
            self.low[column]
        } else {
            -f64::INFINITY
        }
    }

    /// The high bound of a column or of a row's activity, above all numbers where there is none.
    pub fn high_at(&self, column: usize) -> f64 {
        if column < self.high.len() {
            self.high[column]
        } else {
            f64::INFINITY
        }
    }

    /// The cost of a column, 0 for a row's activity.
    pub fn cost_at(&self, column: usize) -> f64 {
        if column < self.cost.len() {
            self.cost[column]
        } else {
            0.0
        }
    }

    /// Where a column or a row's activity stands that isn't basic.
    pub fn rest(&self, column: usize) -> Standing {
        rest_between(self.low_at(column), self.high_at(column))
    }

    /// The entries of a row.
    pub fn row(&self, row: u32) -> &[Entry<f64>] {
        let row = row as usize;
        if row < self.rows.len() {
            &self.rows[row]
        } else {
            &[]
        }
    }
}
