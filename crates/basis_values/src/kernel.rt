//! The part of a basis whose numbers aren't at hand: the rows that stand at an end, and the basic columns.

use crate::exact_program::{ExactProgram, ExactRow};
use basis_factors::Entry;
use basis_guess::Standing;
use exact_systems::System;
use frac128::{Frac, Memory};
use std::alloc::Global;

/// No place at all.
pub(crate) const NONE: u32 = u32::MAX;

/// The system of a basis, with the rows and the columns that it consists of.
#[derive(Drop)]
pub(crate) struct Kernel {
    pub(crate) rows: Vec<u32>,
    pub(crate) columns: Vec<u32>,
    /// The place of each column of the program among them.
    places: Vec<u32>,
    system: System,
}

/// How a column or, behind all columns, a row stands; basic where the list is shorter.
pub(crate) fn standing(standings: &[Standing], place: usize) -> Standing {
    if place < standings.len() {
        standings[place]
    } else {
        Standing::Basic
    }
}

/// The number at a place, 0 where there is none.
pub(crate) fn at(list: &[Frac], place: u32) -> Frac {
    let place = place as usize;
    if place < list.len() {
        list[place]
    } else {
        Frac::zero()
    }
}

/// Writes a number at a place, if the list has it.
pub(crate) fn put(list: &mut [Frac], place: u32, value: Frac) {
    let place = place as usize;
    if place < list.len() {
        list[place] = value;
    }
}

/// So many numbers that are 0.
pub(crate) fn zeros(alloc: Global, count: usize) -> Result<Vec<Frac>, Memory> {
    let mut all = Vec::new(alloc);
    all.resize(count, Frac::zero())?;
    Ok(all)
}

/// The number of a place.
pub(crate) fn narrow(place: usize) -> u32 {
    if place < NONE as usize {
        place as u32
    } else {
        NONE
    }
}

/// The rows that aren't basic.
fn rows_at_ends(
    alloc: Global,
    program: &ExactProgram,
    standings: &[Standing],
) -> Result<Vec<u32>, Memory> {
    let first = program.column_count();
    let mut rows = Vec::new(alloc);
    for row in 0..program.row_count() {
        if standing(standings, first.saturating_add(row)) != Standing::Basic {
            rows.push(narrow(row))?;
        }
    }
    Ok(rows)
}

/// The basic columns.
fn basic_columns(
    alloc: Global,
    program: &ExactProgram,
    standings: &[Standing],
) -> Result<Vec<u32>, Memory> {
    let mut columns = Vec::new(alloc);
    for column in 0..program.column_count() {
        if standing(standings, column) == Standing::Basic {
            columns.push(narrow(column))?;
        }
    }
    Ok(columns)
}

/// The place of each column of the program among some.
fn places_of(alloc: Global, columns: &[u32], count: usize) -> Result<Vec<u32>, Memory> {
    let mut places = Vec::new(alloc);
    places.resize(count, NONE)?;
    for (place, column) in columns.iter().enumerate() {
        let column = *column as usize;
        if column < places.len() {
            places[column] = narrow(place);
        }
    }
    Ok(places)
}

/// The place of a column, `NONE` where it isn't among them.
fn place_in(places: &[u32], column: u32) -> u32 {
    let column = column as usize;
    if column < places.len() {
        places[column]
    } else {
        NONE
    }
}

/// A row's entries in the columns that have a place.
fn own_entries(alloc: Global, row: &ExactRow, places: &[u32]) -> Result<Vec<Entry<Frac>>, Memory> {
    let mut entries = Vec::new(alloc);
    for entry in &row.entries {
        let place = place_in(places, entry.at);
        if place != NONE {
            entries.push(Entry {
                at: place,
                value: entry.value,
            })?;
        }
    }
    Ok(entries)
}

/// The matrix of rows and columns.
fn own_rows(
    alloc: Global,
    program: &ExactProgram,
    rows: &[u32],
    places: &[u32],
) -> Result<Vec<Vec<Entry<Frac>>>, Memory> {
    let all = program.rows();
    let mut own = Vec::new(alloc);
    for row in rows {
        let row = *row as usize;
        if row < all.len() {
            own.push(own_entries(alloc, &all[row], places)?)?;
        }
    }
    Ok(own)
}

impl Kernel {
    /// The kernel of the basis, unless there is none or a number is too wide.
    pub(crate) fn of(
        alloc: Global,
        program: &ExactProgram,
        standings: &[Standing],
    ) -> Result<Option<Kernel>, Memory> {
        let rows = rows_at_ends(alloc, program, standings)?;
        let columns = basic_columns(alloc, program, standings)?;
        if rows.len() != columns.len() {
            return Ok(None);
        }
        let places = places_of(alloc, &columns, program.column_count())?;
        let own = own_rows(alloc, program, &rows, &places)?;
        let Some(system) = System::of(alloc, own)? else {
            return Ok(None);
        };
        Ok(Some(Kernel {
            rows,
            columns,
            places,
            system,
        }))
    }

    /// The place of a column of the program among the basic ones, `NONE` where it isn't basic.
    pub(crate) fn place(&self, column: u32) -> u32 {
        place_in(&self.places, column)
    }

    /// What one solve looks at.
    pub(crate) fn effort(&self) -> usize {
        self.system.effort()
    }

    /// Sets the values of the basic columns with which the rows have these activities.
    pub(crate) fn set_point(
        &self,
        alloc: Global,
        right: &[Frac],
        point: &mut [Frac],
    ) -> Result<bool, Memory> {
        let Some(found) = self.system.solve(alloc, right)? else {
            return Ok(false);
        };
        for (column, value) in self.columns.iter().zip(found.iter()) {
            put(point, *column, *value);
        }
        Ok(true)
    }

    /// Sets the multipliers of the rows with which the basic columns have these costs.
    pub(crate) fn set_multipliers(
        &self,
        alloc: Global,
        costs: &[Frac],
        multipliers: &mut [Frac],
    ) -> Result<bool, Memory> {
        let Some(found) = self.system.solve_transposed(alloc, costs)? else {
            return Ok(false);
        };
        for (row, value) in self.rows.iter().zip(found.iter()) {
            put(multipliers, *row, *value);
        }
        Ok(true)
    }
}
