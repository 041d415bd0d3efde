//! The exact test of a solution: bounds, rows, and multipliers. What can't be told since a sum passes counts as no fault.

use crate::exact_program::{ExactProgram, ExactRow};
use crate::kernel::at;
use crate::solution::Solution;
use crate::sums::{activity, reduced_costs};
use frac128::{Frac, Memory};
use std::alloc::Global;

/// Whether a value is within its bounds.
fn is_between(low: Option<Frac>, high: Option<Frac>, value: Frac) -> bool {
    if let Some(low) = low {
        if value < low {
            return false;
        }
    }
    if let Some(high) = high {
        if high < value {
            return false;
        }
    }
    true
}

/// Whether a price stands where it may: one above 0 at the low end, one below 0 at the high end.
fn is_complementary(low: Option<Frac>, high: Option<Frac>, value: Frac, price: Frac) -> bool {
    let end = match price.sign() {
        0 => return true,
        1 => low,
        _ => high,
    };
    match end {
        Some(end) => end == value,
        None => false,
    }
}

fn is_row_met(row: &ExactRow, point: &[Frac], multiplier: Frac) -> bool {
    match activity(row, point) {
        Some(sum) => {
            is_between(row.low, row.high, sum)
                && is_complementary(row.low, row.high, sum, multiplier)
        }
        None => true,
    }
}

fn are_rows_met(program: &ExactProgram, solution: &Solution) -> bool {
    let mut number: u32 = 0;
    for row in program.rows() {
        if !is_row_met(row, &solution.point, at(&solution.multipliers, number)) {
            return false;
        }
        number = number.wrapping_add(1);
    }
    true
}

fn are_columns_met(program: &ExactProgram, point: &[Frac], prices: &[Option<Frac>]) -> bool {
    for ((column, value), price) in program
        .columns()
        .iter()
        .zip(point.iter())
        .zip(prices.iter())
    {
        if !is_between(column.low, column.high, *value) {
            return false;
        }
        if let Some(price) = price {
            if !is_complementary(column.low, column.high, *value, *price) {
                return false;
            }
        }
    }
    true
}

/// Whether the solution is shown not to be an optimal one.
pub(crate) fn is_refuted(
    alloc: Global,
    program: &ExactProgram,
    solution: &Solution,
) -> Result<bool, Memory> {
    if !are_rows_met(program, solution) {
        return Ok(true);
    }
    let prices = reduced_costs(alloc, program, &solution.multipliers, program.is_priced())?;
    Ok(!are_columns_met(program, &solution.point, &prices))
}
