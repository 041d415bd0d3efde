//! A linear program in exact numbers, and beside it the same in floats.

use basis_factors::Entry;
use basis_guess::FloatProgram;
use decimals::float;
use frac128::{Frac, Memory};
use std::alloc::Global;

/// A column: its bounds, where it has them, and its cost.
#[derive(Clone, Copy)]
pub struct ExactColumn {
    pub low: Option<Frac>,
    pub high: Option<Frac>,
    pub cost: Frac,
}

/// A row: its entries by column, each column once, and its ends, where it has them.
#[derive(Drop)]
pub struct ExactRow {
    pub entries: Vec<Entry<Frac>>,
    pub low: Option<Frac>,
    pub high: Option<Frac>,
    /// The power of 2 that the row is multiplied by in floats.
    pub(crate) factor: f64,
}

/// A program whose least cost is asked for: columns with bounds, and rows with two ends each.
#[derive(Drop)]
pub struct ExactProgram {
    alloc: Global,
    columns: Vec<ExactColumn>,
    rows: Vec<ExactRow>,
    floats: FloatProgram,
    is_priced: bool,
}

/// The greatest entry of a row, rounded and without its sign.
fn greatest(entries: &[Entry<Frac>]) -> f64 {
    let mut most = 0.0;
    for entry in entries {
        let size = float(entry.value).abs();
        if size > most {
            most = size;
        }
    }
    most
}

/// The power of 2 with which a size is from 1/64 on and below 64; 1 for 0.
fn scale(size: f64) -> f64 {
    let mut factor = 1.0;
    for _turn in 0..160 {
        if size * factor >= 64.0 {
            factor *= 0.5;
        } else if size > 0.0 && size * factor < 0.015625 {
            factor *= 2.0;
        } else {
            break;
        }
    }
    factor
}

/// A bound in floats.
fn end(bound: &Option<Frac>, absent: f64, factor: f64) -> f64 {
    match bound {
        Some(value) => float(*value) * factor,
        None => absent,
    }
}

/// Entries in floats, each multiplied by a factor.
fn rounded_entries(
    alloc: Global,
    entries: &[Entry<Frac>],
    factor: f64,
) -> Result<Vec<Entry<f64>>, Memory> {
    let mut all = Vec::with_capacity(alloc, entries.len())?;
    for entry in entries {
        let value = float(entry.value) * factor;
        all.push(Entry {
            at: entry.at,
            value,
        })?;
    }
    Ok(all)
}

impl ExactProgram {
    /// No column and no row.
    pub fn new(alloc: Global) -> ExactProgram {
        ExactProgram {
            alloc,
            columns: Vec::new(alloc),
            rows: Vec::new(alloc),
            floats: FloatProgram::new(alloc),
            is_priced: false,
        }
    }

    /// No column and no row, with memory for so many.
    pub fn sized(alloc: Global, columns: usize, rows: usize) -> Result<ExactProgram, Memory> {
        Ok(ExactProgram {
            alloc,
            columns: Vec::with_capacity(alloc, columns)?,
            rows: Vec::with_capacity(alloc, rows)?,
            floats: FloatProgram::sized(alloc, columns, rows)?,
            is_priced: false,
        })
    }

    /// Adds a column. Rows come behind all columns.
    pub fn push_column(
        &mut self,
        low: Option<Frac>,
        high: Option<Frac>,
        cost: Frac,
    ) -> Result<(), Memory> {
        let least = end(&low, f64::NEG_INFINITY, 1.0);
        let most = end(&high, f64::INFINITY, 1.0);
        self.floats.push_column(least, most, float(cost))?;
        self.columns.push(ExactColumn { low, high, cost })?;
        if !cost.is_zero() {
            self.is_priced = true;
        }
        Ok(())
    }

    /// Adds a row.
    pub fn push_row(
        &mut self,
        entries: Vec<Entry<Frac>>,
        low: Option<Frac>,
        high: Option<Frac>,
    ) -> Result<(), Memory> {
        let factor = scale(greatest(&entries));
        let floats = rounded_entries(self.alloc, &entries, factor)?;
        let least = end(&low, f64::NEG_INFINITY, factor);
        let most = end(&high, f64::INFINITY, factor);
        self.floats.push_row(floats, least, most)?;
        self.rows.push(ExactRow {
            entries,
            low,
            high,
            factor,
        })?;
        Ok(())
    }

    /// The program in floats: each row multiplied by a power of 2.
    pub fn floats(&self) -> &FloatProgram {
        &self.floats
    }

    /// The columns.
    pub fn columns(&self) -> &[ExactColumn] {
        &self.columns
    }

    /// The rows.
    pub fn rows(&self) -> &[ExactRow] {
        &self.rows
    }

    /// How many columns there are.
    pub fn column_count(&self) -> usize {
        self.columns.len()
    }

    /// How many rows there are.
    pub fn row_count(&self) -> usize {
        self.rows.len()
    }

    /// Whether a cost is other than 0.
    pub fn is_priced(&self) -> bool {
        self.is_priced
    }
}
