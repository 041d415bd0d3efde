//! A program's entries by column.

use crate::program::{FloatProgram, narrow};
use basis_factors::Entry;
use std::alloc::{AllocError, Global};

/// The entries of all columns, one column behind the other.
#[derive(Drop)]
pub struct Turned {
    /// Where the entries of each column begin, and where the last ones end.
    starts: Vec<usize>,
    entries: Vec<Entry<f64>>,
}

/// Counts the entries of each column, at the place behind it.
fn count(starts: &mut [usize], rows: &[Vec<Entry<f64>>]) {
    for row in rows {
        for entry in row {
            let place = (entry.at as usize).saturating_add(1);
            if place < starts.len() {
                starts[place] = starts[place].saturating_add(1);
            }
        }
    }
}

/// Adds up.
fn add_up(starts: &mut [usize]) {
    let mut sum: usize = 0;
    for start in starts.iter_mut() {
        sum = sum.saturating_add(*start);
        *start = sum;
    }
}

/// Puts an entry to the others of its column.
fn put(entries: &mut [Entry<f64>], next: &mut [usize], row: u32, entry: &Entry<f64>) {
    let column = entry.at as usize;
    if column < next.len() {
        let place = next[column];
        if place < entries.len() {
            entries[place] = Entry {
                at: row,
                value: entry.value,
            };
        }
        next[column] = place.saturating_add(1);
    }
}

impl Turned {
    /// Those of a program.
    pub fn of(alloc: Global, program: &FloatProgram) -> Result<Turned, AllocError> {
        let columns = program.column_count();
        let mut starts = Vec::new(alloc);
        starts.resize(columns.saturating_add(1), 0)?;
        count(&mut starts, &program.rows);
        add_up(&mut starts);
        let total = match starts.last() {
            Some(total) => *total,
            None => 0,
        };
        let mut entries = Vec::new(alloc);
        entries.resize(total, Entry { at: 0, value: 0.0 })?;
        let mut next = Vec::from_slice(alloc, &starts)?;
        for (row, list) in program.rows.iter().enumerate() {
            for entry in list {
                put(&mut entries, &mut next, narrow(row), entry);
            }
        }
        Ok(Turned { starts, entries })
    }

    /// The entries of a column by row; none for a row's activity.
    pub fn column(&self, column: usize) -> &[Entry<f64>] {
        let behind = column.saturating_add(1);
        if behind >= self.starts.len() || column >= self.starts.len() {
            return &[];
        }
        let (from, end) = (self.starts[column], self.starts[behind]);
        if from <= end && end <= self.entries.len() {
            &self.entries[from..end]
        } else {
            &[]
        }
    }

    /// How many entries there are.
    pub fn len(&self) -> usize {
        self.entries.len()
    }
}
