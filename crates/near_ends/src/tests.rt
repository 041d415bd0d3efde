//! Exact tests of what was rounded. A sum that passes counts as met where floats say so.

use crate::round::at;
use basis_values::{ExactColumn, ExactProgram, ExactRow};
use decimals::float;
use frac128::{Frac, Memory};
use std::alloc::Global;

/// Whether a number lies between its ends.
pub(crate) fn is_between(low: Option<Frac>, high: Option<Frac>, value: Frac) -> bool {
    if let Some(low) = low {
        if value < low {
            return false;
        }
    }
    if let Some(high) = high {
        if high < value {
            return false;
        }
    }
    true
}

/// The sum of a row.
pub(crate) fn activity(row: &ExactRow, point: &[Frac]) -> Option<Frac> {
    let mut sum = Frac::zero();
    for entry in &row.entries {
        match sum.add_product(entry.value, at(point, entry.at as usize)) {
            Ok(next) => sum = next,
            Err(_) => return None,
        }
    }
    Some(sum)
}

/// The sum of a row in floats.
pub(crate) fn float_activity(row: &ExactRow, point: &[Frac]) -> f64 {
    let mut sum = 0.0;
    for entry in &row.entries {
        sum += float(entry.value) * float(at(point, entry.at as usize));
    }
    sum
}

/// Whether a sum in floats lies between its ends.
fn is_near(low: Option<Frac>, high: Option<Frac>, value: f64) -> bool {
    if let Some(low) = low {
        if value < float(low) {
            return false;
        }
    }
    if let Some(high) = high {
        if float(high) < value {
            return false;
        }
    }
    true
}

/// Whether a point meets all rows and bounds.
pub(crate) fn is_point(program: &ExactProgram, point: &[Frac]) -> bool {
    for (place, column) in program.columns().iter().enumerate() {
        if !is_between(column.low, column.high, at(point, place)) {
            return false;
        }
    }
    for row in program.rows() {
        let is_met = match activity(row, point) {
            Some(sum) => is_between(row.low, row.high, sum),
            None => is_near(row.low, row.high, float_activity(row, point)),
        };
        if !is_met {
            return false;
        }
    }
    true
}

/// Whether the end that a multiplier uses is there.
fn uses_end(low: Option<Frac>, high: Option<Frac>, multiplier: Frac) -> bool {
    match multiplier.sign() {
        0 => true,
        1 => low.is_some(),
        _ => high.is_some(),
    }
}

/// The reduced costs of columns; none where one passes.
pub(crate) fn reduced_costs(
    alloc: Global,
    program: &ExactProgram,
    multipliers: &[Frac],
) -> Result<Option<Vec<Frac>>, Memory> {
    let mut all = Vec::new(alloc);
    for column in program.columns() {
        all.push(column.cost)?;
    }
    for (number, row) in program.rows().iter().enumerate() {
        let multiplier = at(multipliers, number);
        if !multiplier.is_zero() {
            for entry in &row.entries {
                let place = entry.at as usize;
                if place < all.len() {
                    match all[place].less_product(entry.value, multiplier) {
                        Ok(rest) => all[place] = rest,
                        Err(_) => return Ok(None),
                    }
                }
            }
        }
    }
    Ok(Some(all))
}

fn is_good(column: &ExactColumn, price: Frac) -> bool {
    uses_end(column.low, column.high, price)
}

/// Whether multipliers are good.
pub(crate) fn are_good(
    alloc: Global,
    program: &ExactProgram,
    multipliers: &[Frac],
) -> Result<bool, Memory> {
    for (number, row) in program.rows().iter().enumerate() {
        if !uses_end(row.low, row.high, at(multipliers, number)) {
            return Ok(false);
        }
    }
    let Some(prices) = reduced_costs(alloc, program, multipliers)? else {
        return Ok(false);
    };
    for (place, column) in program.columns().iter().enumerate() {
        if !is_good(column, at(&prices, place)) {
            return Ok(false);
        }
    }
    Ok(true)
}
