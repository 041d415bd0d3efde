//! A program whose rows, columns, costs and bounds are multiplied by powers of 2, and its solve.

use crate::exponents::Exponents;
use crate::powers::power;
use basis_factors::Entry;
use basis_guess::{Ended, solve};
use bounded_basis::{FloatProgram, Standing};
use std::alloc::{AllocError, Global};

/// So many times the least entry the greatest one may be without being unlike: 2^20.
const ALIKE: f64 = 1048576.0;

/// By column and then by row, for its activity, what a value is multiplied by where the program is.
#[derive(Drop)]
struct Scaled {
    program: FloatProgram,
    values: Vec<f64>,
}

/// The number at a place, 1 where there is none.
fn at(numbers: &[f64], place: usize) -> f64 {
    if place < numbers.len() {
        numbers[place]
    } else {
        1.0
    }
}

/// Whether the sizes of a program's entries are far apart.
pub fn are_unlike(program: &FloatProgram) -> bool {
    let mut least = f64::INFINITY;
    let mut greatest = 0.0;
    for row in &program.rows {
        for entry in row {
            let size = entry.value.abs();
            if size > 0.0 && size < least {
                least = size;
            }
            if size > greatest {
                greatest = size;
            }
        }
    }
    greatest > least * ALIKE
}

/// Entries, each multiplied by a factor and by that of its column.
fn multiplied(
    alloc: Global,
    entries: &[Entry<f64>],
    factor: f64,
    columns: &[f64],
) -> Result<Vec<Entry<f64>>, AllocError> {
    let mut all = Vec::with_capacity(alloc, entries.len())?;
    for entry in entries {
        let value = entry.value * factor / at(columns, entry.at as usize);
        all.push(Entry {
            at: entry.at,
            value,
        })?;
    }
    Ok(all)
}

impl Scaled {
    fn of(alloc: Global, program: &FloatProgram) -> Result<Scaled, AllocError> {
        let exponents = Exponents::of(alloc, program)?;
        let mut scaled = Scaled {
            program: FloatProgram::new(alloc),
            values: Vec::new(alloc),
        };
        scaled.push_columns(program, &exponents)?;
        scaled.push_rows(alloc, program, &exponents)?;
        scaled.push_costs(program, &exponents)?;
        Ok(scaled)
    }

    /// The columns: a column that is multiplied has as much smaller values.
    fn push_columns(
        &mut self,
        program: &FloatProgram,
        exponents: &Exponents,
    ) -> Result<(), AllocError> {
        let count = program.column_count();
        let ends = exponents.column(count);
        let costs = exponents.row(program.row_count());
        for column in 0..count {
            let own = exponents.column(column);
            let value = power(ends.saturating_sub(own));
            let cost = power(costs.saturating_add(own));
            self.program.push_column(
                program.low_at(column) * value,
                program.high_at(column) * value,
                program.cost_at(column) * cost,
            )?;
            self.values.push(value)?;
        }
        Ok(())
    }

    fn push_rows(
        &mut self,
        alloc: Global,
        program: &FloatProgram,
        exponents: &Exponents,
    ) -> Result<(), AllocError> {
        let count = program.column_count();
        let ends = exponents.column(count);
        for (number, row) in program.rows.iter().enumerate() {
            let place = count.saturating_add(number);
            let value = power(ends.saturating_add(exponents.row(number)));
            let entries = multiplied(alloc, row, value, &self.values)?;
            let (low, high) = (program.low_at(place), program.high_at(place));
            self.program.push_row(entries, low * value, high * value)?;
            self.values.push(value)?;
        }
        Ok(())
    }

    /// The costs of the rows' activities, where they have some.
    fn push_costs(
        &mut self,
        program: &FloatProgram,
        exponents: &Exponents,
    ) -> Result<(), AllocError> {
        let count = program.column_count();
        let costs = exponents.row(program.row_count());
        for place in count..program.cost.len() {
            let own = exponents.row(place - count);
            let cost = power(costs.saturating_sub(own));
            self.program.cost.push(program.cost_at(place) * cost)?;
        }
        Ok(())
    }
}

/// Solves a program from a basis, multiplied by powers of 2 so that its entries are near 1; otherwise as `solve` does.
pub fn solve_scaled(
    alloc: Global,
    program: &FloatProgram,
    standings: &[Standing],
    work: u64,
) -> Result<Ended, AllocError> {
    let scaled = Scaled::of(alloc, program)?;
    let mut ended = solve(alloc, &scaled.program, standings, work)?;
    for (value, by) in ended.point.iter_mut().zip(scaled.values.iter()) {
        *value /= *by;
    }
    Ok(ended)
}
