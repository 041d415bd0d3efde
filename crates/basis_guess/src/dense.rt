//! A small program beside a dense tableau: each basic column, or activity of a row, as a sum of the others.

use crate::dual_choice::PIVOT;
use bounded_basis::{FloatProgram, Spot, Standing, constant, narrow, number, set_number};
use std::alloc::{AllocError, Global};

/// The least pivot by which a column becomes basic at first.
const FIRST_PIVOT: f64 = 1e-7;

/// The tableau, and what is known of all columns and activities.
#[derive(Drop)]
pub(crate) struct Dense {
    /// Of the columns and then of the rows' activities.
    pub(crate) spots: Vec<Spot>,
    /// The basic ones, by line.
    pub(crate) head: Vec<u32>,
    /// The others, by place.
    pub(crate) tail: Vec<u32>,
    /// Line by line the numbers of all places.
    lines: Vec<f64>,
    /// The reduced costs by place.
    pub(crate) prices: Vec<f64>,
    /// The values by place.
    values: Vec<f64>,
    /// The line that a pivot makes.
    pivot: Vec<f64>,
    /// How many places there are.
    width: usize,
    /// What is left of the work.
    pub(crate) work_left: u64,
}

/// How a column is to stand, at an end that it has; an activity is basic where the list ends before it.
fn first_spot(program: &FloatProgram, standings: &[Standing], column: usize) -> Spot {
    let (low, high) = (program.low_at(column), program.high_at(column));
    let wanted = if column < standings.len() {
        standings[column]
    } else if column < program.column_count() {
        program.rest(column)
    } else {
        Standing::Basic
    };
    let standing = match wanted {
        Standing::Basic => Standing::Basic,
        Standing::Low if low.is_finite() => Standing::Low,
        Standing::High if high.is_finite() => Standing::High,
        _ => program.rest(column),
    };
    Spot {
        low,
        high,
        cost: program.cost_at(column),
        value: 0.0,
        price: 0.0,
        standing,
    }
}

/// A line of the tableau.
#[inline(always)]
fn line_of(lines: &[f64], line: usize, width: usize) -> &[f64] {
    let start = line.saturating_mul(width);
    let end = start.saturating_add(width);
    if start <= end && end <= lines.len() {
        &lines[start..end]
    } else {
        &[]
    }
}

/// Puts the sum of the pivot's line in the place of a column.
#[inline(always)]
fn replace_place(line: &mut [f64], place: usize, pivot: &[f64]) {
    let factor = number(line, place);
    if factor != 0.0 {
        set_number(line, place, 0.0);
        for (one, by) in line.iter_mut().zip(pivot.iter()) {
            *one += factor * *by;
        }
    }
}

/// Overwrites a line.
#[inline(always)]
fn copy_line(line: &mut [f64], from: &[f64]) {
    for (one, new) in line.iter_mut().zip(from.iter()) {
        *one = *new;
    }
}

/// The sum of products.
#[inline(always)]
fn product(one: &[f64], other: &[f64]) -> f64 {
    let mut sum = 0.0;
    for (a, b) in one.iter().zip(other.iter()) {
        sum += *a * *b;
    }
    sum
}

/// Adds a multiple of a line.
#[inline(always)]
fn add_multiple(sums: &mut [f64], factor: f64, line: &[f64]) {
    for (sum, one) in sums.iter_mut().zip(line.iter()) {
        *sum += factor * *one;
    }
}

/// The number at a place of a list.
#[inline(always)]
fn listed(list: &[u32], place: usize) -> usize {
    if place < list.len() {
        list[place] as usize
    } else {
        usize::MAX
    }
}

/// Writes the entries of a row to its line.
fn write_row(lines: &mut [f64], program: &FloatProgram, row: usize, width: usize) {
    let start = row.saturating_mul(width);
    for entry in program.row(narrow(row)) {
        if (entry.at as usize) < width {
            set_number(lines, start.saturating_add(entry.at as usize), entry.value);
        }
    }
}

impl Dense {
    /// The tableau in which the columns are basic that are to be, as far as pivots allow.
    pub(crate) fn new(
        alloc: Global,
        program: &FloatProgram,
        standings: &[Standing],
        work: u64,
    ) -> Result<Dense, AllocError> {
        let rows = program.row_count();
        let width = program.column_count();
        let mut dense = Dense {
            spots: Vec::with_capacity(alloc, width.saturating_add(rows))?,
            head: Vec::with_capacity(alloc, rows)?,
            tail: Vec::with_capacity(alloc, width)?,
            lines: constant(alloc, 0.0, rows.saturating_mul(width))?,
            prices: constant(alloc, 0.0, width)?,
            values: constant(alloc, 0.0, width)?,
            pivot: constant(alloc, 0.0, width)?,
            width,
            work_left: work,
        };
        dense.fill(program, standings, rows)?;
        dense.take_basis();
        Ok(dense)
    }

    fn fill(
        &mut self,
        program: &FloatProgram,
        standings: &[Standing],
        rows: usize,
    ) -> Result<(), AllocError> {
        for column in 0..self.width {
            self.spots.push(first_spot(program, standings, column))?;
            self.tail.push(narrow(column))?;
        }
        for row in 0..rows {
            let column = self.width.saturating_add(row);
            self.spots.push(first_spot(program, standings, column))?;
            self.head.push(narrow(column))?;
            write_row(&mut self.lines, program, row, self.width);
        }
        Ok(())
    }

    /// Makes those columns basic that are to be; all others rest.
    fn take_basis(&mut self) {
        for place in 0..self.width {
            if self.spot(place).is_basic() {
                if let Some(line) = self.first_line(place) {
                    self.pivot(line, place);
                }
            }
        }
        for place in 0..self.width {
            let column = listed(&self.tail, place);
            if self.spot(column).is_basic() {
                self.rest(column);
            }
        }
        for line in 0..self.head.len() {
            let column = listed(&self.head, line);
            self.set_standing(column, Standing::Basic);
        }
    }

    /// Of the lines of activities that aren't to be basic the one with the largest number in a place.
    fn first_line(&self, place: usize) -> Option<usize> {
        let mut best = None;
        let mut most = FIRST_PIVOT;
        for (line, column) in self.head.iter().enumerate() {
            let size = self.number(line, place).abs();
            if size > most && !self.spot(*column as usize).is_basic() {
                most = size;
                best = Some(line);
            }
        }
        best
    }

    /// What is known of a column.
    #[inline(always)]
    pub(crate) fn spot(&self, column: usize) -> Spot {
        if column < self.spots.len() {
            self.spots[column]
        } else {
            Spot {
                low: 0.0,
                high: 0.0,
                cost: 0.0,
                value: 0.0,
                price: 0.0,
                standing: Standing::Low,
            }
        }
    }

    /// What is known of the basic one of a line.
    #[inline(always)]
    pub(crate) fn basic(&self, line: usize) -> Spot {
        self.spot(listed(&self.head, line))
    }

    /// The basic one of a line.
    pub(crate) fn at(&self, line: usize) -> usize {
        listed(&self.head, line)
    }

    /// What is known of the one at a place, with its reduced cost.
    #[inline(always)]
    pub(crate) fn resting(&self, place: usize) -> Spot {
        let mut spot = self.spot(listed(&self.tail, place));
        spot.price = number(&self.prices, place);
        spot
    }

    /// The number of a line in a place.
    #[inline(always)]
    pub(crate) fn number(&self, line: usize, place: usize) -> f64 {
        number(line_of(&self.lines, line, self.width), place)
    }

    /// How many lines there are.
    pub(crate) fn line_count(&self) -> usize {
        self.head.len()
    }

    /// How many places there are.
    pub(crate) fn place_count(&self) -> usize {
        self.width
    }

    /// Sets how a column stands.
    pub(crate) fn set_standing(&mut self, column: usize, standing: Standing) {
        if column < self.spots.len() {
            self.spots[column].standing = standing;
        }
    }

    /// Lets a column rest.
    fn rest(&mut self, column: usize) {
        let rest = self.spot(column).rest();
        self.set_standing(column, rest);
    }

    /// Brings the one at a place to its other bound.
    pub(crate) fn flip(&mut self, place: usize) {
        let column = listed(&self.tail, place);
        let other = match self.spot(column).standing {
            Standing::Low => Standing::High,
            _ => Standing::Low,
        };
        self.set_standing(column, other);
    }

    /// Finds the values of all.
    pub(crate) fn find_values(&mut self) {
        for place in 0..self.width {
            let column = listed(&self.tail, place);
            let value = self.spot(column).resting_value();
            set_number(&mut self.values, place, value);
            self.set_value(column, value);
        }
        for line in 0..self.head.len() {
            let value = product(line_of(&self.lines, line, self.width), &self.values);
            let column = listed(&self.head, line);
            self.set_value(column, value);
        }
        self.spend();
    }

    fn set_value(&mut self, column: usize, value: f64) {
        if column < self.spots.len() {
            self.spots[column].value = value;
        }
    }

    /// Finds the reduced costs by the true costs.
    pub(crate) fn find_prices(&mut self) {
        for place in 0..self.width {
            let cost = self.spot(listed(&self.tail, place)).cost;
            set_number(&mut self.prices, place, cost);
        }
        for line in 0..self.head.len() {
            let cost = self.basic(line).cost;
            if cost != 0.0 {
                let numbers = line_of(&self.lines, line, self.width);
                add_multiple(&mut self.prices, cost, numbers);
            }
        }
    }

    /// Makes all reduced costs good: by flips to other bounds, or by shifts of costs.
    pub(crate) fn shift_costs(&mut self, tolerance: f64) {
        for place in 0..self.width {
            let spot = self.resting(place);
            if spot.is_wrong(tolerance) {
                if spot.low.is_finite() && spot.high.is_finite() {
                    self.flip(place);
                } else {
                    set_number(&mut self.prices, place, 0.0);
                }
            }
        }
    }

    /// Takes what a look at all numbers costs off the work.
    fn spend(&mut self) {
        let lines = (self.head.len() as u64).saturating_add(1);
        let work = lines.saturating_mul((self.width as u64).saturating_add(1));
        self.work_left = self.work_left.saturating_sub(work);
    }

    /// The one at a place becomes basic in a line, whose basic one takes its place.
    pub(crate) fn pivot(&mut self, line: usize, place: usize) {
        let inverse = 1.0 / self.number(line, place);
        let numbers = line_of(&self.lines, line, self.width);
        for (new, old) in self.pivot.iter_mut().zip(numbers.iter()) {
            *new = -(*old * inverse);
        }
        set_number(&mut self.pivot, place, inverse);
        self.replace(line, place);
        self.exchange(line, place);
        self.spend();
    }

    /// The one at a place becomes basic in a line, and the basic one of the line comes to stand so.
    pub(crate) fn enter(&mut self, line: usize, place: usize, standing: Standing) {
        let leaving = listed(&self.head, line);
        self.set_standing(leaving, standing);
        let entering = listed(&self.tail, place);
        self.set_standing(entering, Standing::Basic);
        self.pivot(line, place);
    }

    fn replace(&mut self, line: usize, place: usize) {
        let width = self.width;
        for other in 0..self.head.len() {
            let start = other.saturating_mul(width);
            let end = start.saturating_add(width);
            if start <= end && end <= self.lines.len() {
                if other == line {
                    copy_line(&mut self.lines[start..end], &self.pivot);
                } else {
                    replace_place(&mut self.lines[start..end], place, &self.pivot);
                }
            }
        }
        replace_place(&mut self.prices, place, &self.pivot);
    }

    fn exchange(&mut self, line: usize, place: usize) {
        if line < self.head.len() && place < self.tail.len() {
            let out = self.head[line];
            self.head[line] = self.tail[place];
            self.tail[place] = out;
        }
    }

    /// The line whose basic one is farthest beyond its bounds.
    pub(crate) fn leaving(&self) -> Option<usize> {
        let mut best = None;
        let mut most = 0.0;
        for (line, column) in self.head.iter().enumerate() {
            let excess = self.spot(*column as usize).excess().abs();
            if excess > most {
                most = excess;
                best = Some(line);
            }
        }
        best
    }

    /// Whether a reduced cost has the wrong sign.
    pub(crate) fn is_priced(&self, tolerance: f64) -> bool {
        for place in 0..self.width {
            if self.resting(place).is_wrong(tolerance) {
                return false;
            }
        }
        true
    }

    /// Whether a number is large enough for a pivot.
    #[inline(always)]
    pub(crate) fn is_pivot(number: f64) -> bool {
        number.abs() >= PIVOT
    }
}
