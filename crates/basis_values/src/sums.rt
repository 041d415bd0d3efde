//! Sums of products over the rows and the columns of a program, nothing where one passes 128 bits.

use crate::exact_program::{ExactProgram, ExactRow};
use crate::kernel::at;
use frac128::{Frac, Memory};
use std::alloc::Global;

/// The activity of a row.
pub(crate) fn activity(row: &ExactRow, point: &[Frac]) -> Option<Frac> {
    let mut sum = Frac::zero();
    for entry in &row.entries {
        sum = sum.add_product(entry.value, at(point, entry.at)).ok()?;
    }
    Some(sum)
}

/// Takes a multiple of a row from sums by column.
fn take(sums: &mut [Option<Frac>], row: &ExactRow, multiplier: Frac) {
    for entry in &row.entries {
        let place = entry.at as usize;
        if place < sums.len() {
            sums[place] = match sums[place] {
                Some(sum) => sum.less_product(entry.value, multiplier).ok(),
                None => None,
            };
        }
    }
}

/// The costs of the columns, 0 where they aren't asked for.
fn costs(
    alloc: Global,
    program: &ExactProgram,
    is_priced: bool,
) -> Result<Vec<Option<Frac>>, Memory> {
    let mut sums = Vec::new(alloc);
    for column in program.columns() {
        let cost = if is_priced { column.cost } else { Frac::zero() };
        sums.push(Some(cost))?;
    }
    Ok(sums)
}

/// By column its cost, where costs are asked for, less what the rows give with these multipliers.
pub(crate) fn reduced_costs(
    alloc: Global,
    program: &ExactProgram,
    multipliers: &[Frac],
    is_priced: bool,
) -> Result<Vec<Option<Frac>>, Memory> {
    let mut sums = costs(alloc, program, is_priced)?;
    for (row, multiplier) in program.rows().iter().zip(multipliers.iter()) {
        if !multiplier.is_zero() {
            take(&mut sums, row, *multiplier);
        }
    }
    Ok(sums)
}
