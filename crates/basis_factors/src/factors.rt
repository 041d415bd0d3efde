//! The elimination, and the factors that it leaves.

use crate::lists::Lists;
use basis_pivots::{Active, Entry, Matrix, NONE, Number, Pick, at, choose, narrow, put, taken};
use std::alloc::{AllocError, Global};

/// Where a pivot stands, and 1 over it.
#[derive(Clone, Copy)]
pub(crate) struct Pivot<T> {
    pub row: u32,
    pub column: u32,
    pub inverse: T,
}

/// The factors of a matrix, with which systems of it are solved (`forward`, `backward`).
#[derive(Drop)]
pub struct Factors<T> {
    pub(crate) pivots: Vec<Pivot<T>>,
    /// By pivot: the rows that its row was taken away from, with the multiples.
    pub(crate) lower: Lists<T>,
    /// By pivot: the other entries of its row, by column.
    pub(crate) upper: Lists<T>,
    /// By pivot: the entries of its column in the rows of earlier pivots, by row.
    pub(crate) upper_columns: Lists<T>,
    /// The pivots whose row was taken away from others.
    pub(crate) busy: Vec<u32>,
    /// By row the number of its pivot.
    pub(crate) of_row: Vec<u32>,
    /// By column the number of its pivot.
    pub(crate) of_column: Vec<u32>,
}

/// What factoring comes to.
#[derive(Drop)]
pub enum Factored<T> {
    /// Each row and column has its pivot.
    Full(Factors<T>),
    /// The rows and the columns that are left where no more pivot is found.
    Deficient { rows: Vec<u32>, columns: Vec<u32> },
}

impl<T: Number> Factors<T> {
    /// The factors of a matrix.
    pub fn of(alloc: Global, matrix: Matrix<T>) -> Result<Factored<T>, AllocError> {
        let (size, width) = (matrix.size(), matrix.width());
        let mut active = Active::new(alloc, matrix)?;
        let factors = eliminated(alloc, &mut active, size, width)?;
        drop(active);
        if factors.pivots.len() >= size && factors.pivots.len() >= width {
            return turned(factors);
        }
        let rows = without_pivot(alloc, &factors.of_row)?;
        let columns = without_pivot(alloc, &factors.of_column)?;
        Ok(Factored::Deficient { rows, columns })
    }

    /// How many numbers the factors have.
    pub fn entries(&self) -> usize {
        let off = self
            .lower
            .entries
            .len()
            .saturating_add(self.upper.entries.len());
        self.pivots.len().saturating_add(off)
    }

    fn prepare(&mut self, size: usize, width: usize) -> Result<(), AllocError> {
        self.of_row.resize(size, NONE)?;
        self.of_column.resize(width, NONE)?;
        self.lower.close()?;
        self.upper.close()
    }

    /// Takes the pivot's row away from all others that have its column.
    fn eliminate(
        &mut self,
        alloc: Global,
        active: &mut Active<T>,
        pick: Pick,
    ) -> Result<(), AllocError> {
        let mut own = active.take_row(alloc, pick.row);
        let rows = active.take_column(alloc, pick.column);
        let inverse = taken(&mut own, pick.column).inverse();
        active.count_down(&own);
        let Pick { row, column } = pick;
        let pivot = Pivot {
            row,
            column,
            inverse,
        };
        self.clear_column(alloc, active, pivot, &own, &rows)
    }

    fn clear_column(
        &mut self,
        alloc: Global,
        active: &mut Active<T>,
        pivot: Pivot<T>,
        own: &[Entry<T>],
        rows: &[u32],
    ) -> Result<(), AllocError> {
        for row in rows {
            self.clear_row(alloc, active, pivot, own, *row)?;
        }
        self.close(pivot, own)
    }

    fn clear_row(
        &mut self,
        alloc: Global,
        active: &mut Active<T>,
        pivot: Pivot<T>,
        own: &[Entry<T>],
        row: u32,
    ) -> Result<(), AllocError> {
        let number = active.take_number(row, pivot.column);
        if number.is_zero() {
            return Ok(());
        }
        let factor = number.times(pivot.inverse);
        self.keep_factor(row, factor)?;
        active.subtract(alloc, row, factor, own)
    }

    fn keep_factor(&mut self, row: u32, factor: T) -> Result<(), AllocError> {
        self.lower.entries.push(Entry {
            at: row,
            value: factor,
        })?;
        Ok(())
    }

    fn close(&mut self, pivot: Pivot<T>, own: &[Entry<T>]) -> Result<(), AllocError> {
        let number = narrow(self.pivots.len());
        if !self.lower.has_closed() {
            self.busy.push(number)?;
        }
        self.lower.close()?;
        self.upper.entries.extend_from_slice(own)?;
        self.upper.close()?;
        put(&mut self.of_row, pivot.row, number);
        put(&mut self.of_column, pivot.column, number);
        self.pivots.push(pivot)?;
        Ok(())
    }

    /// Makes the columns of the upper factor from its rows.
    fn turn(&mut self) -> Result<(), AllocError> {
        let end = self.upper.entries.len();
        let none = Entry {
            at: 0,
            value: T::zero(),
        };
        self.upper_columns.entries.resize(end, none)?;
        self.upper_columns
            .starts
            .resize(self.pivots.len().saturating_add(1), 0)?;
        let starts = &mut self.upper_columns.starts;
        count_columns(starts, &self.of_column, &self.upper.entries);
        add_up(starts);
        let entries = &mut self.upper_columns.entries;
        for (number, pivot) in self.pivots.iter().enumerate() {
            let list = self.upper.list(number);
            spread(starts, entries, &self.of_column, pivot.row, list);
        }
        shift_back(starts);
        Ok(())
    }
}

/// No pivot yet.
fn no_factors<T: Number>(alloc: Global) -> Factors<T> {
    Factors {
        pivots: Vec::new(alloc),
        lower: Lists::new(alloc),
        upper: Lists::new(alloc),
        upper_columns: Lists::new(alloc),
        busy: Vec::new(alloc),
        of_row: Vec::new(alloc),
        of_column: Vec::new(alloc),
    }
}

/// All pivots that are found.
fn eliminated<T: Number>(
    alloc: Global,
    active: &mut Active<T>,
    size: usize,
    width: usize,
) -> Result<Factors<T>, AllocError> {
    let mut factors = no_factors(alloc);
    factors.prepare(size, width)?;
    for _pivot in 0..size {
        let Some(pick) = choose(active) else {
            break;
        };
        factors.eliminate(alloc, active, pick)?;
    }
    Ok(factors)
}

/// The factors with the columns of the upper one.
fn turned<T: Number>(mut factors: Factors<T>) -> Result<Factored<T>, AllocError> {
    factors.turn()?;
    Ok(Factored::Full(factors))
}

/// The rows or columns with no pivot.
fn without_pivot(alloc: Global, pivots: &[u32]) -> Result<Vec<u32>, AllocError> {
    let mut all = Vec::new(alloc);
    for (place, number) in pivots.iter().enumerate() {
        if *number == NONE {
            all.push(narrow(place))?;
        }
    }
    Ok(all)
}

/// Counts the entries of each column, one place behind the column's pivot.
fn count_columns<T: Number>(starts: &mut [usize], of_column: &[u32], entries: &[Entry<T>]) {
    for entry in entries {
        let behind = (at(of_column, entry.at) as usize).wrapping_add(1);
        if behind < starts.len() {
            starts[behind] = starts[behind].wrapping_add(1);
        }
    }
}

/// Adds to each number all before it.
fn add_up(starts: &mut [usize]) {
    let mut sum: usize = 0;
    for start in starts.iter_mut() {
        sum = sum.wrapping_add(*start);
        *start = sum;
    }
}

/// Puts the entries of a row to those of their columns; what was a column's start moves to its end.
fn spread<T: Number>(
    starts: &mut [usize],
    entries: &mut [Entry<T>],
    of_column: &[u32],
    row: u32,
    list: &[Entry<T>],
) {
    for entry in list {
        let number = at(of_column, entry.at) as usize;
        if number < starts.len() {
            let place = starts[number];
            starts[number] = place.wrapping_add(1);
            if place < entries.len() {
                entries[place] = Entry {
                    at: row,
                    value: entry.value,
                };
            }
        }
    }
}

/// Makes starts of the ends of lists.
fn shift_back(starts: &mut [usize]) {
    let mut before = 0;
    for start in starts.iter_mut() {
        let end = *start;
        *start = before;
        before = end;
    }
}
