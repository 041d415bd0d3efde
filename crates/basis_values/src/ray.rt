//! Multipliers of rows that show that no point meets them all.

use crate::exact_program::{ExactProgram, ExactRow};
use crate::kernel::{Kernel, NONE, narrow, put, zeros};
use crate::sums::reduced_costs;
use frac128::{Frac, Memory};
use std::alloc::Global;

/// Writes a row's entries in the basic columns.
fn put_entries(costs: &mut [Frac], kernel: &Kernel, row: &ExactRow) {
    for entry in &row.entries {
        let place = kernel.place(entry.at);
        if place != NONE {
            put(costs, place, entry.value);
        }
    }
}

/// What the basic columns cost where only one column, or only the activity of a row, is asked for.
fn unit_costs(
    alloc: Global,
    kernel: &Kernel,
    column: u32,
    row: Option<&ExactRow>,
) -> Result<Vec<Frac>, Memory> {
    let mut costs = zeros(alloc, kernel.columns.len())?;
    match row {
        None => put(&mut costs, kernel.place(column), Frac::one()),
        Some(row) => put_entries(&mut costs, kernel, row),
    }
    Ok(costs)
}

fn negate(list: &mut [Frac]) {
    for value in list.iter_mut() {
        *value = value.neg();
    }
}

/// The row of the basis' inverse at a column, or at the activity of a row behind all columns.
fn inverse_row(
    alloc: Global,
    program: &ExactProgram,
    kernel: &Kernel,
    column: u32,
) -> Result<Option<Vec<Frac>>, Memory> {
    let mut multipliers = zeros(alloc, program.row_count())?;
    let number = (column as usize).checked_sub(program.column_count());
    let rows = program.rows();
    let row = match number {
        Some(number) if number < rows.len() => Some(&rows[number]),
        Some(_) => return Ok(None),
        None => None,
    };
    let costs = unit_costs(alloc, kernel, column, row)?;
    if !kernel.set_multipliers(alloc, &costs, &mut multipliers)? {
        return Ok(None);
    }
    if let Some(number) = number {
        put(&mut multipliers, narrow(number), Frac::one().neg());
    }
    Ok(Some(multipliers))
}

/// The sum of the ends that the multipliers choose.
fn ends(program: &ExactProgram, multipliers: &[Frac]) -> Option<Frac> {
    let mut sum = Frac::zero();
    for (row, multiplier) in program.rows().iter().zip(multipliers.iter()) {
        let end = match multiplier.sign() {
            0 => continue,
            1 => row.low?,
            _ => row.high?,
        };
        sum = sum.add_product(end, *multiplier).ok()?;
    }
    Some(sum)
}

/// How far the sum of the ends is above what columns within their bounds can give; `prices` are what the rows give,
/// with the other sign.
fn worth(program: &ExactProgram, ends: Frac, prices: &[Option<Frac>]) -> Option<Frac> {
    let mut sum = ends;
    for (column, price) in program.columns().iter().zip(prices.iter()) {
        let price = (*price)?;
        let bound = match price.sign() {
            0 => continue,
            1 => column.low?,
            _ => column.high?,
        };
        sum = sum.add_product(bound, price).ok()?;
    }
    Some(sum)
}

/// Whether the multipliers show that no point meets the rows.
fn is_ray(alloc: Global, program: &ExactProgram, multipliers: &[Frac]) -> Result<bool, Memory> {
    let Some(ends) = ends(program, multipliers) else {
        return Ok(false);
    };
    let prices = reduced_costs(alloc, program, multipliers, false)?;
    Ok(match worth(program, ends, &prices) {
        Some(value) => value.sign() > 0,
        None => false,
    })
}

/// The ray where a basic column, or behind all columns the activity of a row, can't be brought within its bounds.
pub(crate) fn ray_of(
    alloc: Global,
    program: &ExactProgram,
    kernel: &Kernel,
    column: u32,
    is_below: bool,
) -> Result<Option<Vec<Frac>>, Memory> {
    let Some(mut multipliers) = inverse_row(alloc, program, kernel, column)? else {
        return Ok(None);
    };
    if is_below {
        negate(&mut multipliers);
    }
    if is_ray(alloc, program, &multipliers)? {
        Ok(Some(multipliers))
    } else {
        Ok(None)
    }
}
