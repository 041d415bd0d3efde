//! A program in floats as it is, or enlarged around a point: there the point is 0, and what it misses of rows and bounds is large enough
//! for floats.

use crate::round::{add_fine, at, rounded, zeros};
use crate::tests::{activity, float_activity};
use basis_factors::Entry;
use basis_guess::{Ended, FloatProgram, Standing, solve};
use basis_values::{ExactProgram, ExactRow};
use decimals::{float, float_difference};
use frac128::{Frac, Memory};
use std::alloc::Global;

/// By so much of the sum of its entries a row is moved inward.
pub(crate) const MARGIN: f64 = 0.00000000004;

/// By so much in an enlarged program, in its own units.
pub(crate) const FINE_MARGIN: f64 = 0.00000001;

/// So many times a program is enlarged: 2^20.
pub(crate) const ZOOM: f64 = 1048576.0;

/// A program in floats, and the point that is 0 in it.
#[derive(Drop)]
pub(crate) struct Field {
    pub(crate) floats: FloatProgram,
    from: Vec<Frac>,
    is_enlarged: bool,
}

/// Solves a program from standings, which become those of its end, within the work that is left, and takes what was done from it.
pub(crate) fn solved(
    alloc: Global,
    program: &FloatProgram,
    standings: &mut Vec<Standing>,
    work: &mut u64,
) -> Result<Ended, Memory> {
    let ended = solve(alloc, program, standings, *work)?;
    *work = ended.work_left;
    *standings = Vec::from_slice(alloc, &ended.standings)?;
    Ok(ended)
}

/// The power of 2 that a row was multiplied by.
pub(crate) fn factor(exact: &[Entry<Frac>], floats: &[Entry<f64>]) -> f64 {
    for (entry, rounded) in exact.iter().zip(floats.iter()) {
        let value = float(entry.value);
        if value != 0.0 {
            return rounded.value / value;
        }
    }
    1.0
}

/// A bound less a number, enlarged.
fn beyond(bound: Option<Frac>, absent: f64, value: Frac) -> f64 {
    match bound {
        Some(bound) => float_difference(bound, value) * ZOOM,
        None => absent,
    }
}

/// The same where the number is a float.
fn beyond_float(bound: Option<Frac>, absent: f64, value: f64) -> f64 {
    match bound {
        Some(bound) => (float(bound) - value) * ZOOM,
        None => absent,
    }
}

/// The ends of a row less its sum, enlarged.
fn ends(row: &ExactRow, point: &[Frac]) -> (f64, f64) {
    match activity(row, point) {
        Some(sum) => (
            beyond(row.low, f64::NEG_INFINITY, sum),
            beyond(row.high, f64::INFINITY, sum),
        ),
        None => {
            let sum = float_activity(row, point);
            (
                beyond_float(row.low, f64::NEG_INFINITY, sum),
                beyond_float(row.high, f64::INFINITY, sum),
            )
        }
    }
}

impl Field {
    /// The program as it is.
    pub(crate) fn whole(alloc: Global, program: &ExactProgram) -> Result<Field, Memory> {
        let floats = program.floats();
        let count = floats.column_count();
        let mut all = FloatProgram::new(alloc);
        for column in 0..count {
            all.push_column(
                floats.low_at(column),
                floats.high_at(column),
                floats.cost_at(column),
            )?;
        }
        for (number, row) in floats.rows.iter().enumerate() {
            let place = count.saturating_add(number);
            let entries = Vec::from_slice(alloc, row)?;
            all.push_row(entries, floats.low_at(place), floats.high_at(place))?;
        }
        Ok(Field {
            floats: all,
            from: zeros(alloc, 0)?,
            is_enlarged: false,
        })
    }

    /// The program around a point, enlarged.
    pub(crate) fn around(
        alloc: Global,
        program: &ExactProgram,
        from: Vec<Frac>,
    ) -> Result<Field, Memory> {
        let floats = program.floats();
        let mut all = FloatProgram::new(alloc);
        for (place, column) in program.columns().iter().enumerate() {
            let value = at(&from, place);
            let low = beyond(column.low, f64::NEG_INFINITY, value);
            let high = beyond(column.high, f64::INFINITY, value);
            all.push_column(low, high, floats.cost_at(place))?;
        }
        for (row, scaled) in program.rows().iter().zip(floats.rows.iter()) {
            let by = factor(&row.entries, scaled);
            let (low, high) = ends(row, &from);
            all.push_row(Vec::from_slice(alloc, scaled)?, low * by, high * by)?;
        }
        Ok(Field {
            floats: all,
            from,
            is_enlarged: true,
        })
    }

    /// The first margin.
    pub(crate) fn margin(&self) -> f64 {
        if self.is_enlarged {
            FINE_MARGIN
        } else {
            MARGIN
        }
    }

    /// The number of a column that has this float.
    pub(crate) fn number(&self, place: usize, value: f64) -> Frac {
        if self.is_enlarged {
            add_fine(at(&self.from, place), value / ZOOM, 1.0)
        } else {
            rounded(value)
        }
    }
}
