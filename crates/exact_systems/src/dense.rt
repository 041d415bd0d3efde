//! A small square system, solved by elimination in fractions.

use basis_factors::Entry;
use frac128::{Frac, Memory};
use std::alloc::Global;

/// So many equations a small system has at most.
const SMALL: usize = 12;

/// So many a sparse one, and so many entries in each.
const SPARSE: usize = 32;

const FEW: usize = 3;

/// The triangular factors of a matrix whose rows were put into another order: below the diagonal those that rows were taken off by, from
/// the diagonal on what was left.
#[derive(Drop)]
pub(crate) struct Dense {
    numbers: Vec<Frac>,
    size: usize,
    /// Which row of the matrix stands in a line.
    order: Vec<u32>,
}

/// What a small matrix comes to.
#[derive(Drop)]
pub(crate) enum Eliminated {
    Full(Dense),
    Singular,
    /// It isn't small, or a number is too wide.
    Nothing,
}

/// The number at a place, 0 where there is none.
#[inline(always)]
fn at(list: &[Frac], place: usize) -> Frac {
    if place < list.len() {
        list[place]
    } else {
        Frac::zero()
    }
}

/// Writes a number at a place, if the list has it.
#[inline(always)]
fn put(list: &mut [Frac], place: usize, value: Frac) {
    if place < list.len() {
        list[place] = value;
    }
}

/// How many entries all rows have.
fn entries(rows: &[Vec<Entry<Frac>>]) -> usize {
    let mut sum: usize = 0;
    for row in rows {
        sum = sum.saturating_add(row.len());
    }
    sum
}

/// Whether a system is small, or sparse and not much larger: fractions grow where there is much to eliminate.
fn is_small(rows: &[Vec<Entry<Frac>>]) -> bool {
    let size = rows.len();
    size <= SMALL || (size <= SPARSE && entries(rows) <= size.saturating_mul(FEW))
}

/// So many numbers that are 0.
fn zeros(alloc: Global, count: usize) -> Result<Vec<Frac>, Memory> {
    let mut all = Vec::new(alloc);
    all.resize(count, Frac::zero())?;
    Ok(all)
}

/// A quotient, where it fits.
#[inline(always)]
fn quotient(number: Frac, by: Frac) -> Option<Frac> {
    if number.is_zero() || by.is_one() {
        return Some(number);
    }
    if by.is_zero() {
        return None;
    }
    number.div(by).ok()
}

/// A number less a product, where it fits.
#[inline(always)]
fn less(number: Frac, factor: Frac, times: Frac) -> Option<Frac> {
    if factor.is_zero() || times.is_zero() {
        return Some(number);
    }
    number.less_product(factor, times).ok()
}

impl Dense {
    /// The factors of a matrix with these rows, each by column from 0 on.
    pub(crate) fn of(alloc: Global, rows: &[Vec<Entry<Frac>>]) -> Result<Eliminated, Memory> {
        let size = rows.len();
        if !is_small(rows) {
            return Ok(Eliminated::Nothing);
        }
        let mut dense = Dense {
            numbers: zeros(alloc, size.saturating_mul(size))?,
            size,
            order: Vec::with_capacity(alloc, size)?,
        };
        dense.fill(rows)?;
        Ok(dense.eliminated())
    }

    fn fill(&mut self, rows: &[Vec<Entry<Frac>>]) -> Result<(), Memory> {
        for (line, row) in rows.iter().enumerate() {
            for entry in row {
                self.set(line, entry.at as usize, entry.value);
            }
            if let Ok(number) = u32::try_from(line) {
                self.order.push(number)?;
            }
        }
        Ok(())
    }

    fn eliminated(self) -> Eliminated {
        let mut dense = self;
        for step in 0..dense.size {
            let Some(line) = dense.pivot_line(step) else {
                return Eliminated::Singular;
            };
            dense.exchange(step, line);
            if dense.reduce(step).is_none() {
                return Eliminated::Nothing;
            }
        }
        Eliminated::Full(dense)
    }

    #[inline(always)]
    fn number(&self, line: usize, column: usize) -> Frac {
        at(
            &self.numbers,
            line.saturating_mul(self.size).saturating_add(column),
        )
    }

    #[inline(always)]
    fn set(&mut self, line: usize, column: usize, value: Frac) {
        let place = line.saturating_mul(self.size).saturating_add(column);
        put(&mut self.numbers, place, value);
    }

    /// A line from this one on with a number other than 0 in its column, if it may be a 1.
    fn pivot_line(&self, step: usize) -> Option<usize> {
        let mut found = None;
        for line in step..self.size {
            let number = self.number(line, step);
            if number.is_one() {
                return Some(line);
            }
            if found.is_none() && !number.is_zero() {
                found = Some(line);
            }
        }
        found
    }

    fn exchange(&mut self, one: usize, other: usize) {
        if one == other {
            return;
        }
        for column in 0..self.size {
            let number = self.number(one, column);
            self.set(one, column, self.number(other, column));
            self.set(other, column, number);
        }
        if one < self.order.len() && other < self.order.len() {
            let number = self.order[one];
            self.order[one] = self.order[other];
            self.order[other] = number;
        }
    }

    /// Takes multiples of a line off those behind it.
    fn reduce(&mut self, step: usize) -> Option<()> {
        let pivot = self.number(step, step);
        for line in step.saturating_add(1)..self.size {
            let number = self.number(line, step);
            if !number.is_zero() {
                let factor = quotient(number, pivot)?;
                self.set(line, step, factor);
                self.take_off(line, step, factor)?;
            }
        }
        Some(())
    }

    fn take_off(&mut self, line: usize, step: usize, factor: Frac) -> Option<()> {
        for column in step.saturating_add(1)..self.size {
            let times = self.number(step, column);
            let left = less(self.number(line, column), factor, times)?;
            self.set(line, column, left);
        }
        Some(())
    }

    /// The number of the row in a line.
    fn row(&self, line: usize) -> usize {
        if line < self.order.len() {
            self.order[line] as usize
        } else {
            usize::MAX
        }
    }

    /// A number less the products of a line's numbers with others, from one column to another.
    fn less_line(
        &self,
        start: Frac,
        line: usize,
        from: usize,
        end: usize,
        values: &[Frac],
    ) -> Option<Frac> {
        let mut left = start;
        for column in from..end {
            left = less(left, self.number(line, column), at(values, column))?;
        }
        Some(left)
    }

    /// As above with a column's numbers.
    fn less_column(
        &self,
        start: Frac,
        column: usize,
        from: usize,
        end: usize,
        values: &[Frac],
    ) -> Option<Frac> {
        let mut left = start;
        for line in from..end {
            left = less(left, self.number(line, column), at(values, line))?;
        }
        Some(left)
    }

    /// The solution of rows times x = right, by column, where all numbers fit.
    pub(crate) fn solve(&self, right: &[Frac], solution: &mut [Frac]) -> Option<()> {
        for line in 0..self.size {
            let start = at(right, self.row(line));
            let value = self.less_line(start, line, 0, line, solution)?;
            put(solution, line, value);
        }
        for back in 0..self.size {
            let line = self.size.saturating_sub(back).saturating_sub(1);
            let start = at(solution, line);
            let next = line.saturating_add(1);
            let left = self.less_line(start, line, next, self.size, solution)?;
            put(solution, line, quotient(left, self.number(line, line))?);
        }
        Some(())
    }

    /// The solution of y times rows = costs, by row, where all numbers fit; `lines` is the same by line.
    pub(crate) fn solve_transposed(
        &self,
        costs: &[Frac],
        lines: &mut [Frac],
        solution: &mut [Frac],
    ) -> Option<()> {
        for line in 0..self.size {
            let left = self.less_column(at(costs, line), line, 0, line, lines)?;
            put(lines, line, quotient(left, self.number(line, line))?);
        }
        for back in 0..self.size {
            let line = self.size.saturating_sub(back).saturating_sub(1);
            let next = line.saturating_add(1);
            let left = self.less_column(at(lines, line), line, next, self.size, lines)?;
            put(lines, line, left);
            put(solution, self.row(line), left);
        }
        Some(())
    }

    /// The solution of rows times x = right, by column.
    pub(crate) fn solved(
        &self,
        alloc: Global,
        right: &[Frac],
    ) -> Result<Option<Vec<Frac>>, Memory> {
        let mut solution = zeros(alloc, self.size)?;
        match self.solve(right, &mut solution) {
            Some(()) => Ok(Some(solution)),
            None => Ok(None),
        }
    }

    /// The solution of y times rows = costs, by row.
    pub(crate) fn solved_transposed(
        &self,
        alloc: Global,
        costs: &[Frac],
    ) -> Result<Option<Vec<Frac>>, Memory> {
        let mut lines = zeros(alloc, self.size)?;
        let mut solution = zeros(alloc, self.size)?;
        match self.solve_transposed(costs, &mut lines, &mut solution) {
            Some(()) => Ok(Some(solution)),
            None => Ok(None),
        }
    }

    /// What one solve looks at.
    pub(crate) fn effort(&self) -> usize {
        self.numbers.len()
    }
}
