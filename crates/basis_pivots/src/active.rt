//! The part of a matrix that isn't factored yet.

use crate::buckets::Buckets;
use crate::entries::{Entry, NONE, narrow};
use crate::matrix::Matrix;
use crate::numbers::Number;
use std::alloc::{AllocError, Global};
use std::mem::replace;

/// The entry of the pivot's row in a column, while it is taken away from the row `row`.
#[derive(Clone, Copy)]
struct Mark<T> {
    row: u32,
    value: T,
}

/// Rows with their entries, columns with their rows.
#[derive(Drop)]
pub struct Active<T> {
    rows: Vec<Vec<Entry<T>>>,
    /// By column its rows; those that are done stay in the lists, since a search for them would be quadratic.
    columns: Vec<Vec<u32>>,
    /// By column how many of its rows aren't done.
    left: Vec<u32>,
    is_done: Vec<bool>,
    pub(crate) by_row: Buckets,
    pub(crate) by_column: Buckets,
    marks: Vec<Mark<T>>,
}

/// Where a column stands in a row; the row's length or more where it doesn't.
fn place_of<T: Number>(entries: &[Entry<T>], column: u32) -> usize {
    for (place, entry) in entries.iter().enumerate() {
        if entry.at == column {
            return place;
        }
    }
    usize::MAX
}

/// Takes the entry of a column out of a row: its number, 0 where there is none.
pub fn taken<T: Number>(entries: &mut Vec<Entry<T>>, column: u32) -> T {
    let place = place_of(entries, column);
    if place < entries.len() {
        entries.swap_remove(place).value
    } else {
        T::zero()
    }
}

impl<T: Number> Active<T> {
    /// A whole matrix.
    pub fn new(alloc: Global, matrix: Matrix<T>) -> Result<Active<T>, AllocError> {
        let Matrix { rows, columns } = matrix;
        let mut active = Active {
            rows,
            columns,
            left: Vec::new(alloc),
            is_done: Vec::new(alloc),
            by_row: Buckets::new(alloc),
            by_column: Buckets::new(alloc),
            marks: Vec::new(alloc),
        };
        active.prepare()?;
        Ok(active)
    }

    fn prepare(&mut self) -> Result<(), AllocError> {
        let (size, width) = (self.rows.len(), self.columns.len());
        self.by_row.resize(size, width)?;
        self.by_column.resize(width, size)?;
        self.is_done.resize(size, false)?;
        let mark = Mark {
            row: NONE,
            value: T::zero(),
        };
        self.marks.resize(width, mark)?;
        self.count_columns()?;
        self.count_rows();
        Ok(())
    }

    fn count_columns(&mut self) -> Result<(), AllocError> {
        for (column, rows) in self.columns.iter().enumerate() {
            self.left.push(narrow(rows.len()))?;
            self.by_column.put(narrow(column), rows.len());
        }
        Ok(())
    }

    fn count_rows(&mut self) {
        for (row, entries) in self.rows.iter().enumerate() {
            self.by_row.put(narrow(row), entries.len());
        }
    }

    /// The entries of a row.
    pub fn row(&self, row: u32) -> &[Entry<T>] {
        let row = row as usize;
        if row < self.rows.len() {
            &self.rows[row]
        } else {
            &[]
        }
    }

    /// The rows of a column, with those that are done.
    pub fn column(&self, column: u32) -> &[u32] {
        let column = column as usize;
        if column < self.columns.len() {
            &self.columns[column]
        } else {
            &[]
        }
    }

    /// How many rows of a column aren't done.
    pub fn left(&self, column: u32) -> usize {
        let column = column as usize;
        if column < self.left.len() {
            self.left[column] as usize
        } else {
            0
        }
    }

    /// Whether a row is done.
    pub fn is_done(&self, row: u32) -> bool {
        let row = row as usize;
        row >= self.is_done.len() || self.is_done[row]
    }

    /// The number of a row in a column.
    pub fn value(&self, row: u32, column: u32) -> T {
        let entries = self.row(row);
        let place = place_of(entries, column);
        if place < entries.len() {
            entries[place].value
        } else {
            T::zero()
        }
    }

    /// The size of the largest number of a row.
    pub fn largest(&self, row: u32) -> f64 {
        let mut most = 0.0;
        for entry in self.row(row) {
            let size = entry.value.size();
            if size > most {
                most = size;
            }
        }
        most
    }

    /// Takes a row out, which is done with it.
    pub fn take_row(&mut self, alloc: Global, row: u32) -> Vec<Entry<T>> {
        self.by_row.remove(row);
        let place = row as usize;
        if place < self.is_done.len() {
            self.is_done[place] = true;
        }
        if place < self.rows.len() {
            replace(&mut self.rows[place], Vec::new(alloc))
        } else {
            Vec::new(alloc)
        }
    }

    /// Takes a column out: its rows.
    pub fn take_column(&mut self, alloc: Global, column: u32) -> Vec<u32> {
        self.by_column.remove(column);
        let place = column as usize;
        if place < self.columns.len() {
            replace(&mut self.columns[place], Vec::new(alloc))
        } else {
            Vec::new(alloc)
        }
    }

    fn add_left(&mut self, column: u32, more: u32) {
        let place = column as usize;
        if place < self.left.len() {
            let left = self.left[place].wrapping_add(more);
            self.left[place] = left;
            self.by_column.recount(column, left as usize);
        }
    }

    /// A row of each of these columns is done.
    pub fn count_down(&mut self, entries: &[Entry<T>]) {
        for entry in entries {
            self.add_left(entry.at, u32::MAX);
        }
    }

    /// The number of a column in a row that isn't done, taken out of that row.
    pub fn take_number(&mut self, row: u32, column: u32) -> T {
        let place = row as usize;
        if place < self.rows.len() && !self.is_done(row) {
            taken(&mut self.rows[place], column)
        } else {
            T::zero()
        }
    }

    /// Takes a multiple of the pivot's row away from a row.
    pub fn subtract(
        &mut self,
        alloc: Global,
        row: u32,
        factor: T,
        pivot: &[Entry<T>],
    ) -> Result<(), AllocError> {
        let place = row as usize;
        if place >= self.rows.len() {
            return Ok(());
        }
        let mut own = replace(&mut self.rows[place], Vec::new(alloc));
        self.set_marks(row, pivot);
        self.subtract_marked(row, factor, &mut own);
        let ended = self.fill_in(row, factor, pivot, &mut own);
        self.by_row.recount(row, own.len());
        if place < self.rows.len() {
            self.rows[place] = own;
        }
        ended
    }

    fn set_marks(&mut self, row: u32, pivot: &[Entry<T>]) {
        for entry in pivot {
            let column = entry.at as usize;
            if column < self.marks.len() {
                let value = entry.value;
                self.marks[column] = Mark { row, value };
            }
        }
    }

    /// The number of a column that is marked for the row; the mark is cleared.
    #[inline(always)]
    fn unmarked(&mut self, row: u32, column: u32) -> Option<T> {
        let column = column as usize;
        if column < self.marks.len() {
            let mark = self.marks[column];
            if mark.row == row {
                self.marks[column].row = NONE;
                return Some(mark.value);
            }
        }
        None
    }

    /// The marked columns that the row has already.
    fn subtract_marked(&mut self, row: u32, factor: T, own: &mut Vec<Entry<T>>) {
        let mut place = 0;
        for _turn in 0..own.len() {
            if place >= own.len() {
                return;
            }
            let entry = own[place];
            if let Some(other) = self.unmarked(row, entry.at) {
                let value = entry.value.less_product(factor, other);
                if value.is_cleared() {
                    own.swap_remove(place);
                    self.forget(row, entry.at);
                    continue;
                }
                own[place].value = value;
            }
            place += 1;
        }
    }

    /// The marked columns that are new to the row.
    fn fill_in(
        &mut self,
        row: u32,
        factor: T,
        pivot: &[Entry<T>],
        own: &mut Vec<Entry<T>>,
    ) -> Result<(), AllocError> {
        for entry in pivot {
            let at = entry.at;
            if let Some(other) = self.unmarked(row, at) {
                let value = T::zero().less_product(factor, other);
                own.push(Entry { at, value })?;
                self.remember(row, at)?;
            }
        }
        Ok(())
    }

    fn remember(&mut self, row: u32, column: u32) -> Result<(), AllocError> {
        let place = column as usize;
        if place < self.columns.len() {
            self.columns[place].push(row)?;
            self.add_left(column, 1);
        }
        Ok(())
    }

    /// The entry of a row in a column has become 0.
    fn forget(&mut self, row: u32, column: u32) {
        let place = column as usize;
        if place < self.columns.len() {
            forget_row(&mut self.columns[place], row);
            self.add_left(column, u32::MAX);
        }
    }
}

fn forget_row(rows: &mut Vec<u32>, row: u32) {
    for place in 0..rows.len() {
        if place < rows.len() && rows[place] == row {
            rows.swap_remove(place);
            return;
        }
    }
}
