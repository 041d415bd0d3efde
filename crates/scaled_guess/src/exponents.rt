//! The powers of 2 by which rows and columns are multiplied: of each, the greatest and the least entry come to lie as far above 1 as below,
//! one row and one column after the other (geometric scaling: J. A. Tomlin, On scaling linear programming problems, 1975).

use crate::powers::exponent_of;
use bounded_basis::FloatProgram;
use std::alloc::{AllocError, Global};

/// So often rows and then columns are multiplied.
const TURNS: u32 = 6;

/// An entry: its row and column, and the exponent of its size.
#[derive(Clone, Copy)]
struct Magnitude {
    row: usize,
    column: usize,
    exponent: i32,
}

/// The greatest and the least exponent in a row or a column; none where it has no entry.
#[derive(Clone, Copy)]
struct Span {
    greatest: i32,
    least: i32,
}

/// The exponents of all rows and columns; the costs are the last row, and the ends of rows the last column.
#[derive(Drop)]
pub(crate) struct Exponents {
    rows: Vec<i32>,
    columns: Vec<i32>,
}

/// The exponent at a place, 0 where there is none.
fn at(exponents: &[i32], place: usize) -> i32 {
    if place < exponents.len() {
        exponents[place]
    } else {
        0
    }
}

/// No entry yet.
const NONE: Span = Span {
    greatest: i32::MIN,
    least: i32::MAX,
};

impl Span {
    /// With one more exponent.
    fn with(self, exponent: i32) -> Span {
        Span {
            greatest: self.greatest.max(exponent),
            least: self.least.min(exponent),
        }
    }

    /// What has to be added so that both lie as far from 0.
    fn balance(self) -> i32 {
        if self.greatest < self.least {
            return 0;
        }
        let sum = self.greatest.saturating_add(self.least);
        0i32.saturating_sub(sum / 2)
    }
}

/// Takes an exponent into the span at a place.
fn widen(spans: &mut [Span], place: usize, exponent: i32) {
    if place < spans.len() {
        spans[place] = spans[place].with(exponent);
    }
}

/// Adds an entry, unless it is 0 or has no end.
fn push(all: &mut Vec<Magnitude>, row: usize, column: usize, value: f64) -> Result<(), AllocError> {
    let size = value.abs();
    if size > 0.0 && size.is_finite() {
        all.push(Magnitude {
            row,
            column,
            exponent: exponent_of(size),
        })?;
    }
    Ok(())
}

/// The entries of all rows, with their ends.
fn push_rows(all: &mut Vec<Magnitude>, program: &FloatProgram) -> Result<(), AllocError> {
    let count = program.column_count();
    for (number, row) in program.rows.iter().enumerate() {
        for entry in row {
            push(all, number, entry.at as usize, entry.value)?;
        }
        let place = count.saturating_add(number);
        push(all, number, count, program.low_at(place))?;
        push(all, number, count, program.high_at(place))?;
    }
    Ok(())
}

/// All entries, with the costs and the ends of rows.
fn magnitudes(alloc: Global, program: &FloatProgram) -> Result<Vec<Magnitude>, AllocError> {
    let mut all = Vec::new(alloc);
    push_rows(&mut all, program)?;
    for column in 0..program.column_count() {
        push(
            &mut all,
            program.row_count(),
            column,
            program.cost_at(column),
        )?;
    }
    Ok(all)
}

/// So many exponents that are 0.
fn zeros(alloc: Global, count: usize) -> Result<Vec<i32>, AllocError> {
    let mut all = Vec::new(alloc);
    all.resize(count, 0)?;
    Ok(all)
}

/// So many spans without an entry.
fn spans(alloc: Global, count: usize) -> Result<Vec<Span>, AllocError> {
    let mut all = Vec::new(alloc);
    all.resize(count, NONE)?;
    Ok(all)
}

/// Puts what balances each span.
fn put_balances(exponents: &mut [i32], spans: &[Span]) {
    for (exponent, span) in exponents.iter_mut().zip(spans.iter()) {
        *exponent = span.balance();
    }
}

impl Exponents {
    /// The exponents by which a program is multiplied.
    pub(crate) fn of(alloc: Global, program: &FloatProgram) -> Result<Exponents, AllocError> {
        let all = magnitudes(alloc, program)?;
        let mut exponents = Exponents {
            rows: zeros(alloc, program.row_count().saturating_add(1))?,
            columns: zeros(alloc, program.column_count().saturating_add(1))?,
        };
        for _turn in 0..TURNS {
            exponents.balance_rows(alloc, &all)?;
            exponents.balance_columns(alloc, &all)?;
        }
        Ok(exponents)
    }

    fn balance_rows(&mut self, alloc: Global, all: &[Magnitude]) -> Result<(), AllocError> {
        let mut found = spans(alloc, self.rows.len())?;
        for entry in all {
            let exponent = entry
                .exponent
                .saturating_add(at(&self.columns, entry.column));
            widen(&mut found, entry.row, exponent);
        }
        put_balances(&mut self.rows, &found);
        Ok(())
    }

    fn balance_columns(&mut self, alloc: Global, all: &[Magnitude]) -> Result<(), AllocError> {
        let mut found = spans(alloc, self.columns.len())?;
        for entry in all {
            let exponent = entry.exponent.saturating_add(at(&self.rows, entry.row));
            widen(&mut found, entry.column, exponent);
        }
        put_balances(&mut self.columns, &found);
        Ok(())
    }

    /// The exponent of a row; that of the costs behind all rows.
    pub(crate) fn row(&self, row: usize) -> i32 {
        at(&self.rows, row)
    }

    /// The exponent of a column; that of the ends of rows behind all columns.
    pub(crate) fn column(&self, column: usize) -> i32 {
        at(&self.columns, column)
    }
}
