//! The exact solution of a basis.

use crate::exact_program::{ExactColumn, ExactProgram, ExactRow};
use crate::kernel::{Kernel, NONE, at, standing, zeros};
use basis_guess::Standing;
use frac128::{Frac, Memory};
use std::alloc::Global;

/// A point, and multipliers of the rows.
#[derive(Drop)]
pub struct Solution {
    /// The value of each column.
    pub point: Vec<Frac>,
    /// The multiplier of each row; none at all where every cost is 0.
    pub multipliers: Vec<Frac>,
}

/// The value of a column that isn't basic.
fn resting_value(column: &ExactColumn, standing: Standing) -> Option<Frac> {
    match standing {
        Standing::Low => column.low,
        Standing::High => column.high,
        _ => Some(Frac::zero()),
    }
}

/// The values of the columns that aren't basic, 0 for the others.
fn resting_point(
    alloc: Global,
    program: &ExactProgram,
    standings: &[Standing],
) -> Result<Option<Vec<Frac>>, Memory> {
    let mut point = Vec::new(alloc);
    for (place, column) in program.columns().iter().enumerate() {
        let Some(value) = resting_value(column, standing(standings, place)) else {
            return Ok(None);
        };
        point.push(value)?;
    }
    Ok(Some(point))
}

/// An end of a row less what the columns that aren't basic give.
fn right_side(kernel: &Kernel, row: &ExactRow, standing: Standing, point: &[Frac]) -> Option<Frac> {
    let mut sum = if standing == Standing::High {
        row.high?
    } else {
        row.low?
    };
    for entry in &row.entries {
        if kernel.place(entry.at) == NONE {
            sum = sum.less_product(entry.value, at(point, entry.at)).ok()?;
        }
    }
    Some(sum)
}

fn right_sides(
    alloc: Global,
    program: &ExactProgram,
    standings: &[Standing],
    kernel: &Kernel,
    point: &[Frac],
) -> Result<Option<Vec<Frac>>, Memory> {
    let rows = program.rows();
    let first = program.column_count();
    let mut right = Vec::new(alloc);
    for row in &kernel.rows {
        let row = *row as usize;
        if row >= rows.len() {
            return Ok(None);
        }
        let standing = standing(standings, first.saturating_add(row));
        let Some(value) = right_side(kernel, &rows[row], standing, point) else {
            return Ok(None);
        };
        right.push(value)?;
    }
    Ok(Some(right))
}

/// The exact values of all columns.
fn point_of(
    alloc: Global,
    program: &ExactProgram,
    standings: &[Standing],
    kernel: &Kernel,
) -> Result<Option<Vec<Frac>>, Memory> {
    let Some(mut point) = resting_point(alloc, program, standings)? else {
        return Ok(None);
    };
    let Some(right) = right_sides(alloc, program, standings, kernel, &point)? else {
        return Ok(None);
    };
    let is_set = kernel.set_point(alloc, &right, &mut point)?;
    Ok(if is_set { Some(point) } else { None })
}

/// The costs of the basic columns.
fn basic_costs(
    alloc: Global,
    program: &ExactProgram,
    kernel: &Kernel,
) -> Result<Vec<Frac>, Memory> {
    let columns = program.columns();
    let mut costs = Vec::new(alloc);
    for column in &kernel.columns {
        let place = *column as usize;
        if place < columns.len() {
            costs.push(columns[place].cost)?;
        }
    }
    Ok(costs)
}

/// The exact multipliers of all rows.
fn multipliers_of(
    alloc: Global,
    program: &ExactProgram,
    kernel: &Kernel,
) -> Result<Option<Vec<Frac>>, Memory> {
    if !program.is_priced() {
        return Ok(Some(Vec::new(alloc)));
    }
    let costs = basic_costs(alloc, program, kernel)?;
    let mut multipliers = zeros(alloc, program.row_count())?;
    let is_set = kernel.set_multipliers(alloc, &costs, &mut multipliers)?;
    Ok(if is_set { Some(multipliers) } else { None })
}

/// The exact solution of the basis, unless a number is too wide.
pub(crate) fn solution_of(
    alloc: Global,
    program: &ExactProgram,
    standings: &[Standing],
    kernel: &Kernel,
) -> Result<Option<Solution>, Memory> {
    let Some(point) = point_of(alloc, program, standings, kernel)? else {
        return Ok(None);
    };
    let Some(multipliers) = multipliers_of(alloc, program, kernel)? else {
        return Ok(None);
    };
    Ok(Some(Solution { point, multipliers }))
}
